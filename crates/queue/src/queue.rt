// A queue over lent memory.
pub mod calls;

// The elements are the first `count` of the places, or all of them where there are fewer. The type has no invariant, so
// that any memory and any count make a queue: each call promises by the elements.
#[derive(Drop)]
pub struct Queue<'a, T> {
    places: &'a mut [T],
    count: usize,
}
