// What a mat is told while it runs.

// A release or a finish of a task, by its number, listed or not; or that one tick has passed.
#[derive(Clone, Copy, PartialEq, Eq, Debug)]
pub enum Event {
    Release(usize),
    Finish(usize),
    Tick,
}
