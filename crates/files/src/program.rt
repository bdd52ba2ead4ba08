// What the program `matplan` does, from the bytes that it reads to those that it prints.
use crate::fault::ListFault;
use planning::fault::PlanFault;

pub mod calls;

// Why an input gets no plan: its list file is at fault, or planning leaves tasks over.
#[derive(Clone, Copy)]
pub enum Fault {
    List(ListFault),
    Plan(PlanFault),
}

// What was printed, with its length: the report of a plan, or the line of a refusal. It is no `Result`: in both cases something was
// printed, and the length says how much.
#[derive(Clone, Copy, PartialEq, Eq, Debug)]
pub enum Outcome {
    Planned(usize),
    Refused(usize),
}
