// Gathering the rows that a file says, into an open list or an open plan.
ghost use Rattle.std.specs.Prelude.{◌≡◌, ◌<◌, ◌≤◌, false, [], List, length, Some, None, Err, MatchResult};
ghost use Rattle.files.specs.Decoding.{Rules, Says, Ends, end_fault, decoded_by};
ghost use Rattle.files.specs.Format.{view};
ghost use Rattle.files.specs.declared.fault.ByteFault.TheVariants.{TooLong, WrongCount};

use crate::fault::{ByteFault, FileFault};
use crate::list_file::MAX_FILE;
use crate::reader::Reader;
use crate::record::{FileKind, Record};

// How many bytes the end record takes.
const END_SIZE: usize = 6;

// What takes the rows of a file, one after the other.
pub(crate) trait Gather {
    // What can be wrong with a row.
    type Fault;

    // What the definitions say of a row.
    ghost Row: { Type 0 };

    // The rows so far.
    ghost rows: { Self → List Row };

    // What the records of the file do to rows.
    ghost rules: { Self → Rules Row Self.Fault };

    // Holds of two values if at most the rows differ.
    ghost same_but_rows: { Self → Self → Type 0 };

    // The kind of file that is read.
    fn kind(&self) -> FileKind
        ensures { result ≡ (rules self.now).kind };

    // Takes a record, at the place `at`, that is neither a note nor the end record.
    fn add_record(&mut self, at: u64, record: Record<'_>) -> Result<(), FileFault<Self::Fault>>
        ensures says { Says ((rules self.old).adds at (rows self.old) (view «record».entry)) (rows self.new) result }
        ensures same { same_but_rows self.old self.new };

    // Nothing differs from itself.
    ghost same: { (x : Self) → same_but_rows x x };

    // Differing in rows at most carries over.
    ghost same_on: { (x y z : Self) → same_but_rows x y → same_but_rows y z → same_but_rows x z };

    // What differs in rows at most follows the same rules.
    ghost same_rules: { (x y : Self) → same_but_rows x y → rules y ≡ rules x };
}

// An end record: where it stands, and how many rows it counts.
#[derive(Clone, Copy)]
pub(crate) struct EndRecord {
    at: usize,
    count: u16,
}

impl EndRecord {
    // What is wrong with a file in which rows are missing, or counted wrong.
    pub(crate) fn wrong_count(self) -> ByteFault
        ensures { result ≡ WrongCount self.at }
    {
        ByteFault::WrongCount(self.at as u64)
    }

    // Checks that the record counts the rows, none of which is missing, and that the file of `size` bytes ends with it.
    pub(crate) fn check(self, size: usize, rows: usize) -> Result<(), ByteFault>
        requires { self.at ≤ size }
        ensures { MatchResult result (λ _. end_fault false size self.at rows self.count ≡ None) (λ f. end_fault false size self.at rows self.count ≡ Some f) }
    {
        if usize::from(self.count) != rows {
            return Err(self.wrong_count());
        }
        if size - self.at > END_SIZE {
            return Err(ByteFault::BytesAfterEnd((self.at + END_SIZE) as u64));
        }
        Ok(())
    }
}

// Checks that a file has no more bytes than it may, before any memory is made ready for its rows.
pub(crate) fn check_size(bytes: &[u8]) -> Result<(), ByteFault>
    ensures { MatchResult result (λ _. length bytes.now ≤ 8192) (λ f. (8192 < length bytes.now) × (f ≡ TooLong (length bytes.now))) }
{
    let size = bytes.len();
    if size > MAX_FILE {
        return Err(ByteFault::TooLong(size as u64));
    }
    Ok(())
}

// Gathers the rows that a file says into what has none yet, up to the end record, and answers that.
pub(crate) fn gather_rows<G: Gather>(
    bytes: &[u8],
    into: &mut G,
) -> Result<EndRecord, FileFault<G::Fault>>
    requires none { G.rows into.old ≡ [] }
    requires short { length bytes.now ≤ 8192 }
    ensures ends { MatchResult result (λ e. (e.at ≤ length bytes.now) × Ends (G.rules into.old) bytes.now (G.rows into.new) e.at e.count) (λ f. decoded_by (G.rules into.old) bytes.now ≡ Err f) }
    ensures same { G.same_but_rows into.old into.new }
{
    let mut reader = Reader::new(bytes, into.kind());
    while let Some((at, record)) = reader.next()? {
        match record {
            Record::Note(_) => {}
            Record::End(count) => return Ok(EndRecord { at, count }),
            _ => into.add_record(at as u64, record)?,
        }
    }
    unreachable!()
}
