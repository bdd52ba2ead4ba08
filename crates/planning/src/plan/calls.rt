// Reading and judging a plan.
ghost use Rattle.std.specs.Prelude.{◌≡◌, ◌<◌, replicate, if◌then◌else◌, Some, None, Decides, nat_lt};
ghost use Rattle.analysis.specs.Response.{response as response_of};
ghost use Rattle.planning.specs.Orders.{ranks, above_in, no_row};
ghost use Rattle.planning.specs.Plans.{list_of, rows as rows_of, size, rank_of, held_for, above as above_of, InTime, Fits};

use super::{OpenPlan, Plan, Row};
use crate::rounds::calls::answer;
use analysis::exact::ExactTest;
use tasks::list::{OpenList, TaskList};

impl Plan {
    // The plan of the list with no task.
    pub fn empty() -> Plan
        ensures empty { size result ≡ 0 }
        ensures blank { result.made.rows.places ≡ replicate 32 no_row }
    {
        let list = OpenList::new().close();
        let made = OpenPlan::begin(&list);
        Plan { made }
    }

    // The list that the plan is for.
    pub fn list(&self) -> &TaskList
        ensures { result.now ≡ list_of self.now }
    {
        &self.made.list
    }

    // The rows, in task order.
    pub fn rows(&self) -> &[Row]
        ensures { result.now ≡ rows_of self.now }
    {
        self.made.rows.as_slice()
    }

    // The rank of a task, if it is listed. A greater rank goes first.
    pub fn rank(&self, task: usize) -> Option<u8>
        ensures { result ≡ (if nat_lt task (size self.now) then Some (rank_of self.now task) else None) }
    {
        self.rows().get(task).map(|row| row.rank)
    }

    // For how many ticks a job of the task is held back, if the task is listed.
    pub fn hold(&self, task: usize) -> Option<u16>
        ensures { result ≡ (if nat_lt task (size self.now) then Some (held_for self.now task) else None) }
    {
        self.rows().get(task).map(|row| row.hold)
    }

    // The set of the tasks of rank above this one.
    fn above(&self, rank: u8) -> u32
        ensures { result ≡ above_in (ranks (rows_of self.now)) rank }
    {
        let mut set = 0;
        for (task, row) in self.rows().iter().enumerate() {
            if row.rank > rank {
                set += 1 << task;
            }
        }
        set
    }

    // The response of a task below the tasks of greater rank, if the task is listed and there is one.
    pub fn response(&self, task: usize) -> Option<u16>
        ensures { result ≡ (if nat_lt task (size self.now) then response_of (list_of self.now) (above_of self.now task) task else None) }
    {
        let rank = self.rank(task)?;
        answer(&ExactTest, self.list(), self.above(rank), task)
    }

    // Whether a task is listed and has a response that, after its hold, is in time.
    fn in_time(&self, task: usize) -> bool
        ensures { Decides result ((task < size self.now) × InTime self.now task) }
    {
        let Some(asked) = self.list().task(task) else {
            return false;
        };
        let deadline = u32::from(asked.period);
        let parts = self.hold(task).zip(self.response(task));
        parts.is_some_and(|(hold, ticks)| u32::from(hold) + u32::from(ticks) <= deadline)
    }

    // Whether every task has a response that, after its hold, is in time.
    pub fn judge(&self) -> bool
        ensures { Decides result (Fits self.now) }
    {
        (0..self.list().len()).all(|task| self.in_time(task))
    }
}
