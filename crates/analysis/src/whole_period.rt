// The whole-period test: its bound is the demand over one full period. It asks less work than the exact test, and passes less.
ghost use Rattle.std.specs.Prelude.{◌≡◌};
ghost use Rattle.analysis.specs.WholePeriod.{whole_period as whole_period_of};
ghost use Rattle.analysis.specs.Question.{Answered};
ghost use Rattle.analysis.specs.WholePeriodLaws.{whole_fewer, whole_sound};

use crate::fault::QuestionFault;
use crate::question::Question;
use crate::test::Test;
use tasks::list::TaskList;

impl Question<'_> {
    // The demand over one full period of the task, if that is at most the period.
    fn whole_period(&self) -> Option<u16>
        ensures { result ≡ whole_period_of self.now.list.now self.now.set self.now.task }
    {
        let limit = self.asked().period;
        let asked = self.demand(limit);
        if asked > u64::from(limit) {
            return None;
        }
        Some(asked as u16)
    }
}

// The test that answers the demand over one full period, if that is at most the period.
#[derive(Clone, Copy)]
pub struct WholePeriodTest;

impl Test for WholePeriodTest {
    ghost bound = { λ _ l s i. whole_period_of l s i };

    ghost fewer = { λ x l a s i b p w e. whole_fewer l a s i b w e };

    ghost sound = { λ x l s i b p e. whole_sound l s i b e };

    fn ask(&self, list: &TaskList, set: u32, task: usize) -> Result<Option<u16>, QuestionFault>
        ensures { Answered list.now set task (whole_period_of list.now set task) result }
    {
        Ok(Question::new(list, set, task)?.whole_period())
    }
}
