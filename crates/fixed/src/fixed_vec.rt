// A vector of at most N elements that lie in the value itself.
ghost use Rattle.std.specs.Prelude.{◌≡◌, ◌≤◌, length};

pub mod calls;

// The elements are the first `len` of the places. It is copied as an array is, and no call allocates or fails for want of memory.
#[derive(Copy)]
pub struct FixedVec<T, const N: usize> {
    places: [T; N],
    len: usize,
    ghost room: { (len ≤ N) × (length places ≡ N) },
}

// No place is left for what was to be put in.
#[derive(Clone, Copy, PartialEq, Eq, Debug)]
pub struct Full;
