// Files and their records.
use planning::plan::Row;
use tasks::task::TaskRow;

pub mod calls;

// The two bytes that begin every record.
pub(crate) const MARK_FIRST: u8 = 0xa7;

pub(crate) const MARK_SECOND: u8 = 0x5e;

// What a file holds: a list of tasks, or a plan for one.
#[derive(Clone, Copy, PartialEq, Eq, Debug)]
pub enum FileKind {
    List,
    Plan,
}

// The kinds of records, with their numbers: a task, a note, the end record, a row of a plan.
#[derive(Clone, Copy, PartialEq, Eq, Debug)]
pub(crate) enum Kind {
    Task = 1,
    Note = 2,
    End = 3,
    Plan = 4,
}

// A number that no kind of record has.
#[derive(Clone, Copy, PartialEq, Eq, Debug)]
pub(crate) struct UnknownKind;

// A record, with what its body says; names and notes are borrowed from the file.
#[derive(Clone, Copy)]
pub enum Record<'a> {
    Task(TaskRow<'a>),
    Note(&'a [u8]),
    End(u16),
    Plan { task: u8, row: Row },
}
