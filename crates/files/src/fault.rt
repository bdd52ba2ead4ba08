// What can be wrong with the bytes of a file, with a list file and with a plan file.
use planning::fault::RowFault;
use tasks::fault::TaskFault;

pub mod calls;

// What is wrong with the bytes, each with its place.
#[derive(Clone, Copy, PartialEq, Eq, Debug)]
pub enum ByteFault {
    TooLong(u64),
    CutOff(u64),
    WrongMark(u64),
    WrongKind(u64),
    WrongLength(u64),
    WrongCount(u64),
    BytesAfterEnd(u64),
    ShortBuffer(u64),
}

// What is wrong with a file: its bytes, or one of its rows.
#[derive(Clone, Copy, PartialEq, Eq, Debug)]
pub enum FileFault<F> {
    Bytes(ByteFault),
    Row(F),
}

// What is wrong with a list file: its rows are tasks.
pub type ListFault = FileFault<TaskFault>;

// What is wrong with a plan file.
pub type PlanFileFault = FileFault<RowFault>;
