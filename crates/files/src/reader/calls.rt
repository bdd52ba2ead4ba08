// Making a reader, and asking it for the next record.
ghost use Rattle.std.specs.Prelude.{◌≡◌, ◌^◌, ◌<◌, length, drop};
ghost use Rattle.files.specs.Reading.{ReadsHead, Begins, Nexts};

use super::Reader;
use crate::fault::ByteFault;
use crate::record::{FileKind, Kind, MARK_FIRST, MARK_SECOND, Record};

// The bytes from the place `at` on: none where it is past the end.
fn rest_from(bytes: &[u8], at: usize) -> &[u8]
    ensures rest { result.now ≡ drop at bytes.now }
    ensures size { length bytes.now < 2 ^ 64 }
{
    bytes.get(at..).unwrap_or(&[])
}

// Kind and body of the record that begins these bytes, which stand at a place of a file.
fn head(file: FileKind, place: u64, bytes: &[u8]) -> Result<(Kind, &[u8]), ByteFault>
    ensures { ReadsHead file place bytes.now result }
{
    match bytes {
        [first, second, _, _, ..] if *first != MARK_FIRST || *second != MARK_SECOND => {
            Err(ByteFault::WrongMark(place))
        }
        [_, _, number, len, rest @ ..] => match file.kind(*number) {
            None => Err(ByteFault::WrongKind(place)),
            Some(kind) if !kind.takes(*len) => Err(ByteFault::WrongLength(place)),
            Some(kind) if usize::from(*len) <= rest.len() => {
                Ok((kind, &rest[..usize::from(*len)]))
            }
            Some(_) => Err(ByteFault::CutOff(place)),
        },
        _ => Err(ByteFault::CutOff(place)),
    }
}

impl<'a> Reader<'a> {
    // A reader at the first byte of a file.
    pub fn new(bytes: &'a [u8], kind: FileKind) -> Reader<'a>
        ensures { Begins result bytes.now 0 kind }
    {
        Reader::starting_at(bytes, 0, kind)
    }

    // A reader at any byte of a file, where a record is taken to begin.
    pub fn starting_at(bytes: &'a [u8], at: usize, kind: FileKind) -> Reader<'a>
        ensures { Begins result bytes.now at kind }
    {
        Reader {
            bytes,
            at,
            kind,
            ended: false,
        }
    }

    // The next record, with the place where it begins; none after the end record. A refusal leaves the reader as it was.
    pub fn next(&mut self) -> Result<Option<(usize, Record<'a>)>, ByteFault>
        ensures { Nexts self.old self.new result }
    {
        if self.ended {
            return Ok(None);
        }
        let at = self.at;
        let (kind, body) = head(self.kind, at as u64, rest_from(self.bytes, at))?;
        self.at = at + 4 + body.len();
        self.ended = kind == Kind::End;
        Ok(Some((at, Record::with_body(kind, body))))
    }
}
