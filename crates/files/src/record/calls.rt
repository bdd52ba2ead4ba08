// Which records a file may have, how long they are, and what their bodies say.
ghost use Rattle.files.specs.Format.{kind_number, kind_fits, length_fits, said, view, Numbers};
ghost use Rattle.std.specs.Prelude.{◌≡◌, true, false, length, MatchOption};

use super::{FileKind, Kind, Record, UnknownKind};
use planning::plan::Row;
use tasks::task::TaskRow;

impl TryFrom<u8> for Kind {
    type Error = UnknownKind;

    ghost try_from_gives = { Numbers };

    fn try_from(number: u8) -> Result<Kind, UnknownKind> {
        match number {
            1 => Ok(Kind::Task),
            2 => Ok(Kind::Note),
            3 => Ok(Kind::End),
            4 => Ok(Kind::Plan),
            _ => Err(UnknownKind),
        }
    }
}

impl From<Kind> for u8 {
    ghost from_gives = { λ kind number. number ≡ kind_number kind };

    fn from(kind: Kind) -> u8 {
        kind as u8
    }
}

impl Kind {
    // Whether the body of such a record may have so many bytes.
    pub(crate) fn takes(self, len: u8) -> bool
        ensures { result ≡ length_fits (kind_number self) len }
    {
        match self {
            Kind::Task => (6..=21).contains(&len),
            Kind::Note => true,
            Kind::End => len == 2,
            Kind::Plan => len == 4,
        }
    }
}

impl FileKind {
    // The kind of record with this number, if a file of this kind may have such records.
    pub(crate) fn kind(self, number: u8) -> Option<Kind>
        ensures { MatchOption result (kind_fits self number ≡ false) (λ kind. (kind_fits self number ≡ true) × (number ≡ kind_number kind)) }
    {
        match (self, Kind::try_from(number).ok()?) {
            (FileKind::List, Kind::Plan) | (FileKind::Plan, Kind::Task) => None,
            (_, kind) => Some(kind),
        }
    }
}

impl<'a> Record<'a> {
    // The record of this kind with this body.
    pub(crate) fn with_body(kind: Kind, body: &'a [u8]) -> Record<'a>
        requires { length_fits (kind_number kind) (length body.now) ≡ true }
        ensures { view result ≡ said (kind_number kind) body.now }
    {
        match kind {
            Kind::Task => Record::Task(TaskRow {
                name: &body[5..],
                preference: body[0],
                cost: u16::from_be_bytes([body[1], body[2]]),
                period: u16::from_be_bytes([body[3], body[4]]),
            }),
            Kind::Note => Record::Note(body),
            Kind::End => Record::End(u16::from_be_bytes([body[0], body[1]])),
            Kind::Plan => Record::Plan {
                task: body[0],
                row: Row {
                    rank: body[1],
                    hold: u16::from_be_bytes([body[2], body[3]]),
                },
            },
        }
    }
}
