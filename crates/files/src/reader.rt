// A reader of the records of a file.
use crate::record::FileKind;

pub mod calls;

// A reader of records, which stands at the byte `at` of a file, before or after its end record: the place is still known after that, so
// `at` is no `Option`. The reader is no `Iterator`: `next` answers a fault, or a record if there is one, and after a fault it answers the
// same fault again.
#[derive(Drop)]
pub struct Reader<'a> {
    bytes: &'a [u8],
    at: usize,
    kind: FileKind,
    ended: bool,
}
