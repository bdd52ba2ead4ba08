// Bytes that are put together before they are written, in fixed memory.
use fixed::fixed_vec::FixedVec;

pub mod calls;

// The most bytes that are put together.
pub(crate) const MAX_TEXT: usize = 4_096;

// A text of at most `MAX_TEXT` bytes.
#[derive(Drop)]
pub(crate) struct Text {
    bytes: FixedVec<u8, MAX_TEXT>,
}
