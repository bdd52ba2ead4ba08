// A question to a test: how soon is a task done below a set of tasks?
ghost use Rattle.analysis.specs.Question.{Premises};

use tasks::list::TaskList;

pub mod calls;

pub use calls::well_put;

// A question that is well put: the task and all of the set are listed, and the set lacks the task.
#[derive(Clone, Copy)]
pub struct Question<'a> {
    pub(crate) list: &'a TaskList,
    pub(crate) set: u32,
    pub(crate) task: usize,
    ghost well_put: { Premises list.now set task },
}
