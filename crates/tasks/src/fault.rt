// What a refusal says, and the faults of a task row.
ghost use Rattle.std.specs.Prelude.{◌≡◌};

pub mod calls;

// The layer that found a fault.
#[derive(Clone, Copy, PartialEq, Eq, Debug)]
pub enum Layer {
    Bytes,
    Task,
    Plan,
    Run,
}

// A refusal as every layer tells it. Its number is part of what is printed.
#[derive(Clone, Copy, PartialEq, Eq, Debug)]
pub struct Refusal {
    pub number: u8,
    pub layer: Layer,
    pub place: u64,
}

// A fault of any layer: it can be told as a refusal.
pub trait Refuses {
    ghost use Rattle.tasks.specs.declared.fault.Refusal.{Refusal};

    // What a fault tells.
    ghost told: { Self → Refusal };

    // Number, layer and place of the fault.
    fn refusal(self) -> Refusal
        ensures { result ≡ told self };
}

// What is wrong with a task row, each with the place that its caller named.
#[derive(Clone, Copy, PartialEq, Eq, Debug)]
pub enum TaskFault {
    NameLength(u64),
    UnknownPreference(u64),
    ZeroCost(u64),
    CostAbovePeriod(u64),
    PeriodTooLong(u64),
    TooManyTasks(u64),
}
