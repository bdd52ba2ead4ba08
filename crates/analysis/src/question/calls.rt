// Putting a question.
ghost use Rattle.std.specs.Prelude.{◌≡◌, Decides};
ghost use Rattle.analysis.specs.Put.{Put};
ghost use Rattle.analysis.specs.Question.{Premises};
ghost use Rattle.tasks.specs.List.{task_at};

use super::Question;
use crate::fault::QuestionFault;
use tasks::list::TaskList;
use tasks::set::{first_tasks, has};
use tasks::task::Task;

// Whether the task and all of the set are listed, and the set lacks the task.
pub fn well_put(list: &TaskList, set: u32, task: usize) -> bool
    ensures { Decides result (Premises list.now set task) }
{
    let count = list.len();
    if task >= count {
        return false;
    }
    if set > first_tasks(count) {
        return false;
    }
    !has(set, task)
}

impl<'a> Question<'a> {
    // The question about a task below a set. Refused exactly if it is not well put.
    pub fn new(list: &'a TaskList, set: u32, task: usize) -> Result<Question<'a>, QuestionFault>
        ensures { Put list.now set task result }
    {
        if !well_put(list, set, task) {
            return Err(QuestionFault::IllPut(task as u64));
        }
        Ok(Question { list, set, task })
    }

    // The task asked about.
    pub(crate) fn asked(&self) -> Task
        ensures { result ≡ task_at self.now.list.now self.now.task }
    {
        self.list.tasks()[self.task]
    }
}
