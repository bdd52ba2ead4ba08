// Making a plan row by row, by hand or from a file.
ghost use Rattle.std.specs.Prelude.{◌≡◌, [], replicate};
ghost use Rattle.planning.specs.Orders.{no_row};
ghost use Rattle.planning.specs.Plans.{open_rows};
ghost use Rattle.planning.specs.Rows.{used_in, rank_fits as rank_fits_of, may_hold as may_hold_of, RowTaken, Closed};

use super::{OpenPlan, Plan, Row};
use crate::fault::RowFault;
use fixed::fixed_vec::FixedVec;
use tasks::list::TaskList;
use tasks::task::{Preference, Task};

// Whether a task may have the hold: it is below the deadline, and an ASAP task is not held.
fn may_hold(asked: Task, hold: u16) -> bool
    ensures { result ≡ may_hold_of asked.preference asked.period hold }
{
    hold < asked.period && (asked.preference == Preference::Alap || hold == 0)
}

impl OpenPlan {
    // A plan for the list, with no row yet.
    pub fn begin(list: &TaskList) -> OpenPlan
        ensures list { result.list ≡ list.now }
        ensures empty { open_rows result ≡ [] }
        ensures blank { result.rows.places ≡ replicate 32 no_row }
    {
        OpenPlan {
            list: *list,
            rows: FixedVec::new(Row::NONE),
        }
    }

    // Whether an earlier row has the rank.
    fn rank_used(&self, rank: u8) -> bool
        ensures { result ≡ used_in (open_rows self.now) rank }
    {
        self.rows.as_slice().iter().any(|row| row.rank == rank)
    }

    // Whether the next row may have the rank.
    fn rank_fits(&self, rank: u8) -> bool
        ensures { result ≡ rank_fits_of self.now.list (open_rows self.now) rank }
    {
        rank >= 1 && usize::from(rank) <= self.list.len() && !self.rank_used(rank)
    }

    // Takes the next row. A refusal names the place that the caller gives, and leaves the plan as it was.
    pub fn row(&mut self, place: u64, task: usize, row: Row) -> Result<(), RowFault>
        ensures { RowTaken place task row self.old self.new result }
    {
        if task != self.rows.len() || task >= self.list.len() {
            return Err(RowFault::WrongTask(place));
        }
        if !self.rank_fits(row.rank) {
            return Err(RowFault::WrongRank(place));
        }
        if !may_hold(self.list.tasks()[task], row.hold) {
            return Err(RowFault::WrongHold(place));
        }
        self.rows.push(row).unwrap();
        Ok(())
    }

    // The plan, if no row is missing.
    pub fn close(self) -> Option<Plan>
        ensures { Closed self result }
    {
        if self.rows.len() < self.list.len() {
            return None;
        }
        Some(Plan { made: self })
    }
}
