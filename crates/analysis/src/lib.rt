// Demand and response of a task below a set of tasks, and the tests that planning puts its questions to.
//
//     let bound = ExactTest.ask(&list, set, task)?;

#![tactic(auto)]

mod demand;
pub mod exact;
pub mod fault;
pub mod question;
pub mod test;
pub mod whole_period;
