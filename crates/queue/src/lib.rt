// An ordered queue over memory that its user lends.
//
//     let mut places = [Ready { rank: 0, task: 0 }; 32];
//     let mut queue = Queue::new(&mut places);
//     queue.put(Ready { rank: 3, task: 1 })?;

#![tactic(auto)]

pub mod entries;
pub mod fault;
mod lent;
mod line;
pub mod order;
pub mod queue;
