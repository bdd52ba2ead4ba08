// What planning answers, and the faults of planning and of the rows of a plan.
pub mod calls;

// How planning ended: how many tasks it placed, how many questions it put, and the set of the tasks that it left over.
#[derive(Clone, Copy, PartialEq, Eq, Debug)]
pub struct Tally {
    pub placed: usize,
    pub questions: u32,
    pub left: u32,
}

// Why there is no plan.
#[derive(Clone, Copy, PartialEq, Eq, Debug)]
pub enum PlanFault {
    LeftOver(Tally),
}

// What is wrong with a row of a plan, each with the place that its caller named.
#[derive(Clone, Copy, PartialEq, Eq, Debug)]
pub enum RowFault {
    WrongTask(u64),
    WrongRank(u64),
    WrongHold(u64),
}
