// The word of a layer, and what a task fault tells.
ghost use Rattle.tasks.specs.Faults.{layer_word, task_refusal};
ghost use Rattle.std.specs.Prelude.{◌≡◌};

use super::{Layer, Refusal, Refuses, TaskFault};

impl Layer {
    // The word that a printed refusal has for the layer. No `Display`: `write!` into fixed memory does not say that it succeeds where
    // there is room, so a line is put together from bytes.
    pub fn word(self) -> &'static [u8]
        ensures { result.now ≡ layer_word self }
    {
        match self {
            Layer::Bytes => b"bytes",
            Layer::Task => b"task",
            Layer::Plan => b"plan",
            Layer::Run => b"run",
        }
    }
}

impl Refuses for TaskFault {
    ghost told = { task_refusal };

    fn refusal(self) -> Refusal {
        let (number, place) = match self {
            TaskFault::NameLength(place) => (5, place),
            TaskFault::UnknownPreference(place) => (6, place),
            TaskFault::ZeroCost(place) => (7, place),
            TaskFault::CostAbovePeriod(place) => (8, place),
            TaskFault::PeriodTooLong(place) => (9, place),
            TaskFault::TooManyTasks(place) => (10, place),
        };
        Refusal {
            number,
            layer: Layer::Task,
            place,
        }
    }
}
