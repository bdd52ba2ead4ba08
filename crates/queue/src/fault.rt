// The fault of a queue.
pub mod calls;

// The lent memory is full: it has so many places.
#[derive(Clone, Copy, PartialEq, Eq, Debug)]
pub enum QueueFault {
    Full(u64),
}
