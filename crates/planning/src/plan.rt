// A plan: a closed list with a rank and a hold for each of its tasks.
ghost use Rattle.std.specs.Prelude.{◌≡◌, length};
ghost use Rattle.fixed.specs.FixedVec.{elements};
ghost use Rattle.planning.specs.Orders.{RowsKeep};
ghost use Rattle.tasks.specs.List.{listed};

use fixed::fixed_vec::FixedVec;
use tasks::list::TaskList;
use tasks::list::calls::MAX_TASKS;

pub mod calls;
pub mod planner;
pub mod rows;

// What a plan says of a task: its rank, where a greater one goes first, and for how many ticks its jobs are held back.
#[derive(Clone, Copy, PartialEq, Eq, Debug)]
pub struct Row {
    pub rank: u8,
    pub hold: u16,
}

impl Row {
    // The row of a task that is not placed.
    pub(crate) const NONE: Row = Row { rank: 0, hold: 0 };
}

// A plan in the making, row by row in task order. Its rows keep the rules: their ranks are different and go from 1 to the number
// of tasks; a hold is below the task's deadline, and 0 for an ASAP task.
#[derive(Drop)]
pub struct OpenPlan {
    list: TaskList,
    rows: FixedVec<Row, MAX_TASKS>,
    ghost keep: { RowsKeep list (elements rows) },
}

// A plan that has a row for every task. It is neither copied nor cloned, so a call that takes one uses it up.
#[derive(Drop)]
pub struct Plan {
    made: OpenPlan,
    ghost full: { length (elements made.rows) ≡ length (listed made.list) },
}
