// Tasks with their limits, open and closed task lists, sets of tasks, and what a refusal says.
//
//     let mut open = OpenList::new();
//     let number = open.add(TaskRow { name: b"antenna", preference: 0, cost: 1, period: 5 })?;
//     let list = open.close();

#![tactic(auto)]

pub mod fault;
pub mod list;
pub mod set;
pub mod standing;
pub mod task;
