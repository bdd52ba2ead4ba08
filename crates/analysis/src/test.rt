// What a test is: whoever implements it shows the two laws, and planning rests on nothing else.
ghost use Rattle.std.specs.Prelude.{◌≡◌, ℕ, ◌≤◌, Some, Option as OptionOf};
ghost use Rattle.analysis.specs.Demand.{deadline, demand};
ghost use Rattle.analysis.specs.Question.{Premises, Answered};
ghost use Rattle.tasks.specs.List.{task_at};
ghost use Rattle.tasks.specs.Set.{Within};
ghost use Rattle.tasks.specs.declared.list.TaskList.{TaskList as ClosedList};

use crate::fault::QuestionFault;
use tasks::list::TaskList;

// A test answers, for a task below a set of tasks, a bound on its response, or none.
pub trait Test {
    // The bound for a list, a set and a task.
    ghost bound: { Self → ClosedList → ℕ → ℕ → OptionOf ℕ };

    // Answers the bound for the task below the set. Refused exactly if the question is not well put: so it takes list, set and task, and
    // no `Question`, which always is.
    fn ask(&self, list: &TaskList, set: u32, task: usize) -> Result<Option<u16>, QuestionFault>
        ensures { Answered list.now set task (bound self.now list.now set task) result };

    // Taking tasks out of the set never turns a bound into none, and never raises it.
    ghost fewer: { (x : Self) (l : ClosedList) (a s i b : ℕ) → Premises l s i → Within a s → bound x l s i ≡ Some b → (c : ℕ) × (bound x l a i ≡ Some c) × (c ≤ b) };

    // A bound is at most the deadline, and the demand in as many ticks is at most the bound.
    ghost sound: { (x : Self) (l : ClosedList) (s i b : ℕ) → Premises l s i → bound x l s i ≡ Some b → (b ≤ deadline l (task_at l i)) × (demand l s i b ≤ b) };
}
