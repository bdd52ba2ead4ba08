// What the faults of files tell, and how a fault of the bytes becomes one of a file.
ghost use Rattle.files.specs.Faults.{byte_refusal, file_refusal};
ghost use Rattle.files.specs.declared.fault.FileFault.TheVariants.{Bytes, Row};
ghost use Rattle.std.specs.Prelude.{◌≡◌};

use super::{ByteFault, FileFault, ListFault, PlanFileFault};
use planning::fault::RowFault;
use tasks::fault::{Layer, Refusal, Refuses, TaskFault};

impl Refuses for ByteFault {
    ghost told = { byte_refusal };

    fn refusal(self) -> Refusal {
        let (number, place) = match self {
            ByteFault::TooLong(place) => (1, place),
            ByteFault::CutOff(place) => (2, place),
            ByteFault::WrongMark(place) => (3, place),
            ByteFault::WrongKind(place) => (4, place),
            ByteFault::WrongLength(place) => (5, place),
            ByteFault::WrongCount(place) => (11, place),
            ByteFault::BytesAfterEnd(place) => (12, place),
            ByteFault::ShortBuffer(place) => (21, place),
        };
        Refusal {
            number,
            layer: Layer::Bytes,
            place,
        }
    }
}

impl<F: Refuses> Refuses for FileFault<F> {
    ghost told = { file_refusal F.told };

    fn refusal(self) -> Refusal {
        match self {
            FileFault::Bytes(fault) => fault.refusal(),
            FileFault::Row(fault) => fault.refusal(),
        }
    }
}

impl<F> From<ByteFault> for FileFault<F> {
    ghost from_gives = { λ f r. r ≡ Bytes f };

    fn from(fault: ByteFault) -> FileFault<F> {
        FileFault::Bytes(fault)
    }
}

// One impl for every kind of row would also be one for faults of bytes, which have theirs.
impl From<TaskFault> for ListFault {
    ghost from_gives = { λ f r. r ≡ Row f };

    fn from(fault: TaskFault) -> ListFault {
        FileFault::Row(fault)
    }
}

impl From<RowFault> for PlanFileFault {
    ghost from_gives = { λ f r. r ≡ Row f };

    fn from(fault: RowFault) -> PlanFileFault {
        FileFault::Row(fault)
    }
}
