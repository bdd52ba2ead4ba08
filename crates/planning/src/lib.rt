// Planning: every task of a list gets a rank and a hold, or planning says which tasks are left over.
//
//     let tally = plan_exact(&list, &mut plan)?;

#![tactic(auto)]

pub mod event;
pub mod fault;
pub mod plan;
pub mod rounds;
mod run_laws;
mod worked;
