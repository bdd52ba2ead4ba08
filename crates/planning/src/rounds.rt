// What the rounds of planning work on.
ghost use Rattle.std.specs.Prelude.{◌≡◌, ℕ, ◌<◌, length};
ghost use Rattle.tasks.specs.List.{listed};
ghost use Rattle.tasks.specs.Set.{bit};

use crate::plan::Row;
use tasks::list::TaskList;
use tasks::list::calls::MAX_TASKS;

pub mod calls;

// A task that the test has a bound for. Its slack is its deadline minus that bound.
#[derive(Clone, Copy)]
pub struct Candidate {
    pub task: usize,
    pub bound: u16,
    pub slack: u16,
}

// What a search of a round found: how many questions it put, and the best candidate, if there was one.
#[derive(Clone, Copy)]
pub struct Found {
    pub questions: u32,
    pub best: Option<Candidate>,
}

// A round: the test, the list, and the set of the unplaced tasks, which are all listed.
#[derive(Drop)]
pub(crate) struct Round<'a, T> {
    test: &'a T,
    list: &'a TaskList,
    unplaced: u32,
    ghost only_listed: { (k : ℕ) → bit unplaced k ≡ 1 → k < length (listed list.now) },
}

// A plan in the making: a row for each task by its number. Rank and hold of unplaced tasks are 0.
#[derive(Clone, Copy)]
pub struct Draft {
    pub unplaced: u32,
    pub questions: u32,
    pub rows: [Row; MAX_TASKS],
}
