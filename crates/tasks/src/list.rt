// Task lists: open while tasks are added, closed once they are planned.
use crate::task::Task;
use calls::MAX_TASKS;
use fixed::fixed_vec::FixedVec;

pub mod calls;

// A list that is closed: it takes no more tasks, and can be planned.
#[derive(Clone, Copy)]
pub struct TaskList {
    tasks: FixedVec<Task, MAX_TASKS>,
}

// A list that still takes tasks. It is neither copied nor cloned, so closing it uses it up.
#[derive(Drop)]
pub struct OpenList {
    list: TaskList,
}
