// The two kinds of elements that a dispatcher queues.
pub mod calls;

// A job that is held back: by the tick until which it is held, and then by its task.
#[derive(Clone, Copy, PartialEq, Eq, PartialOrd, Ord, Debug)]
pub struct Held {
    pub until: u32,
    pub task: usize,
}

// A job that is ready: the greatest rank first, and then by its task.
#[derive(Clone, Copy, PartialEq, Eq, Debug)]
pub struct Ready {
    pub rank: u8,
    pub task: usize,
}
