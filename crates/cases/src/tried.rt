// Questions to tests, and a test of our own that never has a bound.
ghost use Rattle.std.specs.Prelude.{None};
ghost use Rattle.std.proofs.Common.{rules};

use crate::says::{is_refused, refusal, task};
use analysis::exact::ExactTest;
use analysis::fault::QuestionFault;
use analysis::question::Question;
use analysis::test::Test;
use analysis::whole_period::WholePeriodTest;
use std::test::Fail;
use tasks::fault::Layer;
use tasks::list::{OpenList, TaskList};

// A lawful test, though a useless one.
#[derive(Clone, Copy)]
pub struct NeverTest;

impl Test for NeverTest {
    ghost bound = { λ _ _ _ _. None };

    ghost fewer = { Prim.search rules };

    ghost sound = { Prim.search rules };

    fn ask(&self, list: &TaskList, set: u32, task: usize) -> Result<Option<u16>, QuestionFault> {
        Question::new(list, set, task)?;
        Ok(None)
    }
}

// (1,5) below (3,4): the response is 4, and over the whole period 7 ticks are asked for.
#[test]
fn two_tests(rt: HostRuntime) -> Result<(), Fail> {
    let mut open = OpenList::new();
    assert_eq!(rt; open.add(task(b"below", 0, 1, 5))?, 0);
    assert_eq!(rt; open.add(task(b"above", 0, 3, 4))?, 1);
    let list = open.close();
    assert_eq!(rt; ExactTest.ask(&list, 2, 0)?, Some(4));
    assert_eq!(rt; WholePeriodTest.ask(&list, 2, 0)?, None);
    assert_eq!(rt; WholePeriodTest.ask(&list, 0, 1)?, Some(3));
    assert_eq!(rt; NeverTest.ask(&list, 0, 1)?, None);
    is_refused(&rt, ExactTest.ask(&list, 0, 2), refusal(17, Layer::Plan, 2))?;
    is_refused(&rt, ExactTest.ask(&list, 1, 0), refusal(17, Layer::Plan, 0))?;
    is_refused(
        &rt,
        WholePeriodTest.ask(&list, 4, 1),
        refusal(17, Layer::Plan, 1),
    )
}
