// One search of a round, a round, and the rounds of planning.
ghost use Rattle.std.specs.Prelude.{◌≡◌, ℕ, ◌+◌, ◌*◌, ◌<◌, ◌≤◌, length};
ghost use Rattle.analysis.specs.Question.{Premises};
ghost use Rattle.planning.specs.Choices.{Stuck};
ghost use Rattle.planning.specs.Drafts.{Drafted};
ghost use Rattle.planning.specs.Passing.{RoundPlaces};
ghost use Rattle.planning.specs.Rounds.{candidate, considered, search as search_of, round as round_of, hold_by, placed_in, begun, planned};
ghost use Rattle.tasks.specs.List.{listed};
ghost use Rattle.tasks.specs.Set.{without};

use super::{Candidate, Draft, Found, Round};
use crate::plan::Row;
use analysis::test::Test;
use tasks::list::TaskList;
use tasks::list::calls::MAX_TASKS;
use tasks::set::{first_tasks, has, take_out};
use tasks::task::Preference;

impl Found {
    // What is found once one more question was answered.
    fn after(self, answer: Option<Candidate>) -> Found
        requires { self.questions < 1000 }
        ensures { result ≡ considered self answer }
    {
        let best = match (self.best, answer) {
            (Some(old), Some(new)) if new.slack > old.slack => Some(new),
            (old, new) => old.or(new),
        };
        Found {
            questions: self.questions + 1,
            best,
        }
    }
}

// The answer to a question that is well put.
pub(crate) fn answer<T: Test>(test: &T, list: &TaskList, set: u32, task: usize) -> Option<u16>
    requires { Premises list.now set task }
    ensures { result ≡ T.bound test.now list.now set task }
{
    test.ask(list, set, task).unwrap()
}

impl<T: Test> Round<'_, T> {
    // Puts the question about one of the unplaced tasks below the others.
    fn ask_about(&self, task: usize) -> Option<Candidate>
        requires { task < length (listed self.now.list.now) }
        ensures { result ≡ candidate self.now.list.now task (T.bound self.now.test.now self.now.list.now (without self.now.unplaced task) task) }
    {
        let deadline = self.list.tasks()[task].period;
        let bound = answer(self.test, self.list, take_out(self.unplaced, task), task)?;
        Some(Candidate {
            task,
            bound,
            slack: deadline.saturating_sub(bound),
        })
    }

    // One search: the question about each unplaced task that has the preference.
    fn search(&self, preference: Preference) -> Found
        ensures value { result ≡ search_of (T.bound self.now.test.now self.now.list.now) self.now.list.now preference self.now.unplaced }
        ensures few { result.questions ≤ 32 }
    {
        let mut found = Found {
            questions: 0,
            best: None,
        };
        for (task, asked) in self.list.tasks().iter().enumerate() {
            if has(self.unplaced, task) && asked.preference == preference {
                found = found.after(self.ask_about(task));
            }
        }
        found
    }

    // What the round finds: a search among the ALAP tasks, and only if that finds no candidate, one among the ASAP tasks. If some
    // order passes, a set with a task has a candidate.
    fn found(&self) -> Found
        ensures value { result ≡ round_of (T.bound self.now.test.now self.now.list.now) self.now.list.now self.now.unplaced }
        ensures places { RoundPlaces (T.bound self.now.test.now self.now.list.now) self.now.list.now self.now.unplaced result.best }
    {
        let late = self.search(Preference::Alap);
        if late.best.is_some() {
            return late;
        }
        let soon = self.search(Preference::Asap);
        Found {
            questions: late.questions + soon.questions,
            best: soon.best,
        }
    }
}

impl Candidate {
    // The hold of a task of this preference, once it is placed: an ALAP task is held for its slack.
    fn hold(self, preference: Preference) -> u16
        ensures { result ≡ hold_by preference self.slack }
    {
        match preference {
            Preference::Asap => 0,
            Preference::Alap => self.slack,
        }
    }
}

impl Draft {
    // Nothing placed, and every listed task still to be.
    fn begin(list: &TaskList) -> Draft
        ensures { result ≡ begun list.now }
    {
        Draft {
            unplaced: first_tasks(list.len()),
            questions: 0,
            rows: [Row::NONE; MAX_TASKS],
        }
    }

    // Places a candidate at a rank.
    fn place(&mut self, list: &TaskList, chosen: Candidate, rank: u8)
        requires { chosen.task < length (listed list.now) }
        ensures { self.new ≡ placed_in list.now self.old chosen rank }
    {
        self.unplaced = take_out(self.unplaced, chosen.task);
        let hold = chosen.hold(list.tasks()[chosen.task].preference);
        self.rows[chosen.task] = Row { rank, hold };
    }
}

// The rounds of planning: each places one task at the next rank, until none is left or none can be placed.
pub(crate) fn rounds<T: Test>(test: &T, list: &TaskList) -> Draft
    ensures value { result ≡ planned (T.bound test.now list.now) list.now }
    ensures drafted { (m : ℕ) × Drafted (T.bound test.now list.now) list.now m result }
    ensures stuck { Stuck (T.bound test.now list.now) result.unplaced }
    ensures few { 2 * result.questions ≤ length (listed list.now) * (length (listed list.now) + 1) }
{
    let mut draft = Draft::begin(list);
    for rank in 1..=list.len() as u8 {
        let round = Round {
            test,
            list,
            unplaced: draft.unplaced,
        };
        let found = round.found();
        draft.questions += found.questions;
        let Some(chosen) = found.best else {
            return draft;
        };
        draft.place(list, chosen, rank);
    }
    draft
}
