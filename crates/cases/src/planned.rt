// Lists planned by tests.
use crate::says::task;
use crate::tried::NeverTest;
use analysis::whole_period::WholePeriodTest;
use planning::fault::{PlanFault, Tally};
use planning::plan::Plan;
use planning::plan::planner::{plan, plan_exact};
use std::process::Abort;
use std::test::Fail;
use tasks::list::{OpenList, TaskList};
use tasks::standing::standing_list;

// The task has this rank, response and hold.
fn has(rt: &impl Abort, plan: &Plan, task: usize, rank: u8, response: u16, hold: u16) {
    assert_eq!(rt; plan.rank(task), Some(rank));
    assert_eq!(rt; plan.response(task), Some(response));
    assert_eq!(rt; plan.hold(task), Some(hold));
}

// The tasks of this set are left over, and the tally says so too.
fn leaves(rt: &impl Abort, answer: Result<Tally, PlanFault>, expected: Tally) -> Result<(), Fail> {
    let Err(PlanFault::LeftOver(tally)) = answer else {
        return Err(Fail::new("not refused"));
    };
    assert_eq!(rt; tally, expected);
    Ok(())
}

#[test]
fn standing(rt: HostRuntime) -> Result<(), Fail> {
    let mut plan = Plan::empty();
    let tally = plan_exact(&standing_list(), &mut plan)?;
    assert_eq!(rt;
        tally,
        Tally {
            placed: 8,
            questions: 20,
            left: 0,
        }
    );
    has(&rt, &plan, 0, 7, 2, 0);
    has(&rt, &plan, 1, 8, 1, 0);
    has(&rt, &plan, 2, 6, 4, 0);
    has(&rt, &plan, 3, 5, 5, 0);
    has(&rt, &plan, 4, 4, 13, 37);
    has(&rt, &plan, 5, 3, 20, 80);
    has(&rt, &plan, 6, 2, 28, 172);
    has(&rt, &plan, 7, 1, 29, 971);
    assert_eq!(rt; plan.rank(8), None);
    assert!(rt; plan.judge());
    Ok(())
}

// (2,5), (4,7), (1,1000), all ASAP: only the last can be placed, and what was lent stays the plan of the list before.
#[test]
fn left_over(rt: HostRuntime) -> Result<(), Fail> {
    let mut plan = Plan::empty();
    let mut open = OpenList::new();
    assert_eq!(rt; open.add(task(b"a", 0, 2, 5))?, 0);
    assert_eq!(rt; open.add(task(b"b", 0, 4, 7))?, 1);
    assert_eq!(rt; open.add(task(b"c", 0, 1, 1000))?, 2);
    leaves(
        &rt,
        plan_exact(&open.close(), &mut plan),
        Tally {
            placed: 1,
            questions: 5,
            left: 3,
        },
    )?;
    assert_eq!(rt; plan.list().len(), 0);
    let mut full = OpenList::new();
    assert_eq!(rt; full.add(task(b"a", 0, 2, 4))?, 0);
    assert_eq!(rt; full.add(task(b"b", 0, 3, 6))?, 1);
    leaves(
        &rt,
        plan_exact(&full.close(), &mut plan),
        Tally {
            placed: 0,
            questions: 2,
            left: 3,
        },
    )
}

// (6,11) has the response 10 below (2,5), but asks for 12 ticks over its whole period; and (2,5) has no bound below (6,11). So the
// whole-period test places neither, as does a test that never has a bound.
#[test]
fn other_tests(rt: HostRuntime) -> Result<(), Fail> {
    let mut made = Plan::empty();
    let mut open = OpenList::new();
    assert_eq!(rt; open.add(task(b"long", 0, 6, 11))?, 0);
    assert_eq!(rt; open.add(task(b"short", 0, 2, 5))?, 1);
    let list = open.close();
    assert_eq!(rt;
        plan_exact(&list, &mut made)?,
        Tally {
            placed: 2,
            questions: 3,
            left: 0,
        }
    );
    leaves(
        &rt,
        plan(&WholePeriodTest, &list, &mut made),
        Tally {
            placed: 0,
            questions: 2,
            left: 3,
        },
    )?;
    leaves(
        &rt,
        plan(&NeverTest, &list, &mut made),
        Tally {
            placed: 0,
            questions: 2,
            left: 3,
        },
    )?;
    assert_eq!(rt; made.list().len(), 2);
    Ok(())
}

// 32 equal ASAP tasks that fit exactly: each round asks about all that are left, 32 * 33 / 2 questions in all.
#[test]
fn full_list(rt: HostRuntime) -> Result<(), Fail> {
    let mut made = Plan::empty();
    let mut open = OpenList::new();
    for _ in 0..32 {
        let _ = open.add(task(b"a", 0, 1, 32))?;
    }
    let list = open.close();
    assert_eq!(rt;
        plan_exact(&list, &mut made)?,
        Tally {
            placed: 32,
            questions: 528,
            left: 0,
        }
    );
    has(&rt, &made, 0, 1, 32, 0);
    has(&rt, &made, 31, 32, 1, 0);
    Ok(())
}
