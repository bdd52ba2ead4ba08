// Whether a row keeps the limits; adding tasks, closing a list, and reading it.
ghost use Rattle.std.specs.Prelude.{◌≡◌, [], ◌∷◌, length, slice_get, Some, None, MatchResult};
ghost use Rattle.tasks.specs.List.{row, new_row, listed, opened, row_said, limit_fault, Adds};
ghost use Rattle.tasks.specs.Task.{preference_of};

use super::{OpenList, TaskList};
use crate::fault::TaskFault;
use crate::task::{Name, Preference, Task, TaskRow};
use fixed::fixed_vec::FixedVec;

// The most tasks that a list holds: a set of tasks is a word of as many bits.
pub const MAX_TASKS: usize = 32;

// The longest period, in ticks.
pub const MAX_PERIOD: u16 = 60_000;

impl Task {
    // What stands in the places of a list that no task has taken.
    fn filler() -> Task
        ensures { row result ≡ new_row (0 ∷ []) 0 1 1 }
    {
        Task {
            name: Name::filler(),
            preference: Preference::Asap,
            cost: 1,
            period: 1,
        }
    }
}

impl TaskRow<'_> {
    // The preference of a row whose numbers keep the limits.
    fn within_limits(&self, place: u64) -> Result<Preference, TaskFault>
        ensures { MatchResult result (λ p. (limit_fault place self.now.preference self.now.cost self.now.period ≡ None) × (preference_of self.now.preference ≡ Some p)) (λ f. limit_fault place self.now.preference self.now.cost self.now.period ≡ Some f) }
    {
        let preference = Preference::try_from(self.preference).map_err(
            |_| TaskFault::UnknownPreference(place),
        )?;
        if self.cost == 0 {
            return Err(TaskFault::ZeroCost(place));
        }
        if self.cost > self.period {
            return Err(TaskFault::CostAbovePeriod(place));
        }
        if self.period > MAX_PERIOD {
            return Err(TaskFault::PeriodTooLong(place));
        }
        Ok(preference)
    }
}

impl OpenList {
    // A list with no task.
    pub fn new() -> OpenList
        ensures { opened result ≡ [] }
    {
        let tasks = FixedVec::new(Task::filler());
        OpenList {
            list: TaskList { tasks },
        }
    }

    // Adds a task and answers its number. A refusal names the number that the task would get.
    pub fn add(&mut self, row: TaskRow<'_>) -> Result<usize, TaskFault>
        ensures { Adds (length (opened self.old)) (row_said row.entry) self.old self.new result }
    {
        let place = self.list.len() as u64;
        self.add_at(place, row)
    }

    // Adds a task and answers its number. A refusal names the place that the caller gives.
    pub fn add_at(&mut self, place: u64, row: TaskRow<'_>) -> Result<usize, TaskFault>
        ensures { Adds place (row_said row.entry) self.old self.new result }
    {
        let preference = row.within_limits(place)?;
        let number = self.list.len();
        if number >= MAX_TASKS {
            return Err(TaskFault::TooManyTasks(place));
        }
        let task = Task {
            name: Name::new(row.name).ok_or(TaskFault::NameLength(place))?,
            preference,
            cost: row.cost,
            period: row.period,
        };
        self.list.tasks.push(task).unwrap();
        Ok(number)
    }

    // Closes the list: what is left has the same tasks, and takes no more.
    pub fn close(self) -> TaskList
        ensures { listed result ≡ opened self }
    {
        self.list
    }
}

impl TaskList {
    // How many tasks are listed.
    pub fn len(&self) -> usize
        ensures { result ≡ length (listed self.now) }
    {
        self.tasks.len()
    }

    // The listed tasks, in the order in which they were added.
    pub fn tasks(&self) -> &[Task]
        ensures { result.now ≡ listed self.now }
    {
        self.tasks.as_slice()
    }

    // The task with this number, if it is listed.
    pub fn task(&self, number: usize) -> Option<Task>
        ensures { result ≡ slice_get (listed self.now) number }
    {
        self.tasks().get(number).copied()
    }
}
