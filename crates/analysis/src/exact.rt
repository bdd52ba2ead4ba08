// The exact test: its bound is the response, the smallest number of ticks in which the demand is met.
ghost use Rattle.std.specs.Prelude.{◌≡◌, IfOk};
ghost use Rattle.analysis.specs.Question.{Answered};
ghost use Rattle.analysis.specs.Response.{response as response_of, Smallest};
ghost use Rattle.analysis.specs.ResponseLaws.{response_fewer, response_some};

use crate::fault::QuestionFault;
use crate::question::Question;
use crate::test::Test;
use tasks::list::TaskList;

impl Question<'_> {
    // The response of the task below the set: raised straight to the demand until the two agree, or the deadline is passed.
    fn response(&self) -> Option<u16>
        ensures { result ≡ response_of self.now.list.now self.now.set self.now.task }
    {
        let limit = self.asked().period;
        let mut ticks: u16 = 1;
        loop {
            let asked = self.demand(ticks);
            if asked <= u64::from(ticks) {
                return Some(ticks);
            }
            if asked > u64::from(limit) {
                return None;
            }
            ticks = asked as u16;
        }
    }
}

// The test that answers the response.
#[derive(Clone, Copy)]
pub struct ExactTest;

impl Test for ExactTest {
    ghost bound = { λ _ l s i. response_of l s i };

    ghost fewer = { λ x l a s i b p w e. response_fewer l a s i b w e };

    ghost sound = { λ x l s i b p e. let r = response_some l s i b e in (r.in_time, r.met) };

    fn ask(&self, list: &TaskList, set: u32, task: usize) -> Result<Option<u16>, QuestionFault>
        ensures answered { Answered list.now set task (response_of list.now set task) result }
        ensures smallest { IfOk result (λ o. Smallest list.now set task o) }
    {
        Ok(Question::new(list, set, task)?.response())
    }
}
