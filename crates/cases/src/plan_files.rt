// Plan files, read and written.
use crate::says::{is_refused, refusal, two_tasks};
use files::list_file::read_list;
use files::plan_file::{read_plan, write_plan};
use planning::plan::Plan;
use planning::plan::planner::plan_exact;
use std::process::Abort;
use std::test::Fail;
use tasks::fault::{Layer, Refusal};
use tasks::list::{OpenList, TaskList};

const FOUR_TASKS: &[u8] =
    b"\xa7\x5e\x01\x06\x00\x00\x01\x00\x05a\xa7\x5e\x01\x06\x00\x00\x03\x00\x0ab\xa7\x5e\x01\x06\x01\x00\x01\x00\x05c\xa7\x5e\x01\x06\x01\x00\x01\x00\x0ad\xa7\x5e\x03\x02\x00\x04";

const THEIR_PLAN: &[u8] =
    b"\xa7\x5e\x04\x04\x00\x04\x00\x00\xa7\x5e\x04\x04\x01\x03\x00\x00\xa7\x5e\x04\x04\x02\x02\x00\x00\xa7\x5e\x04\x04\x03\x01\x00\x02\xa7\x5e\x03\x02\x00\x04";

// The plan file of the four-task example: it is what the plan is written as, and it reads as that plan.
#[test]
fn four_tasks(rt: HostRuntime) -> Result<(), Fail> {
    let mut list = OpenList::new().close();
    read_list(FOUR_TASKS, &mut list)?;
    let mut plan = Plan::empty();
    let _ = plan_exact(&list, &mut plan)?;
    let mut buffer = [7u8; 40];
    assert_eq!(rt; write_plan(&plan, &mut buffer)?, 38);
    assert!(rt; &buffer[0..38] == THEIR_PLAN);
    assert_eq!(rt; buffer[38], 7);
    let mut read = Plan::empty();
    read_plan(THEIR_PLAN, &list, &mut read)?;
    assert_eq!(rt; read.rank(0), Some(4));
    assert_eq!(rt; read.rank(3), Some(1));
    assert_eq!(rt; read.hold(3), Some(2));
    assert!(rt; read.judge());
    Ok(())
}

// The refusal of reading these bytes as a plan of the list; what was lent stays.
fn refuses(rt: &impl Abort, bytes: &[u8], list: &TaskList, expected: Refusal) -> Result<(), Fail> {
    let mut plan = Plan::empty();
    is_refused(rt, read_plan(bytes, list, &mut plan), expected)?;
    assert_eq!(rt; plan.list().len(), 0);
    Ok(())
}

#[test]
fn wrong_rows(rt: HostRuntime) -> Result<(), Fail> {
    let list = two_tasks(&rt)?;
    refuses(
        &rt,
        b"\xa7\x5e\x04\x04\x01\x01\x00\x00",
        &list,
        refusal(13, Layer::Plan, 0),
    )?;
    refuses(
        &rt,
        b"\xa7\x5e\x02\x00\xa7\x5e\x04\x04\x00\x00\x00\x09",
        &list,
        refusal(14, Layer::Plan, 4),
    )?;
    refuses(
        &rt,
        b"\xa7\x5e\x04\x04\x00\x03\x00\x00",
        &list,
        refusal(14, Layer::Plan, 0),
    )?;
    refuses(
        &rt,
        b"\xa7\x5e\x04\x04\x00\x01\x00\x01",
        &list,
        refusal(15, Layer::Plan, 0),
    )?;
    refuses(
        &rt,
        b"\xa7\x5e\x04\x04\x00\x01\x00\x00\xa7\x5e\x04\x04\x01\x01\x00\x00",
        &list,
        refusal(14, Layer::Plan, 8),
    )?;
    refuses(
        &rt,
        b"\xa7\x5e\x04\x04\x00\x01\x00\x00\xa7\x5e\x04\x04\x01\x02\x00\x0a",
        &list,
        refusal(15, Layer::Plan, 8),
    )?;
    refuses(
        &rt,
        b"\xa7\x5e\x04\x04\x00\x01\x00\x00\xa7\x5e\x04\x04\x01\x02\x00\x00\xa7\x5e\x04\x04\x02\x01\x00\x00",
        &list,
        refusal(13, Layer::Plan, 16),
    )
}

#[test]
fn wrong_files(rt: HostRuntime) -> Result<(), Fail> {
    let list = two_tasks(&rt)?;
    refuses(
        &rt,
        b"\xa7\x5e\x01\x06\x00\x00\x01\x00\x05a",
        &list,
        refusal(4, Layer::Bytes, 0),
    )?;
    refuses(
        &rt,
        b"\xa7\x5e\x04\x03\x00\x01\x00",
        &list,
        refusal(5, Layer::Bytes, 0),
    )?;
    refuses(
        &rt,
        b"\xa7\x5e\x04\x04\x00\x01\x00",
        &list,
        refusal(2, Layer::Bytes, 0),
    )?;
    refuses(
        &rt,
        b"\xa7\x5e\x04\x04\x00\x01\x00\x00\xa7\x5e\x03\x02\x00\x01",
        &list,
        refusal(11, Layer::Bytes, 8),
    )?;
    refuses(
        &rt,
        b"\xa7\x5e\x04\x04\x00\x01\x00\x00\xa7\x5e\x04\x04\x01\x02\x00\x00\xa7\x5e\x03\x02\x00\x03",
        &list,
        refusal(11, Layer::Bytes, 16),
    )?;
    refuses(
        &rt,
        b"\xa7\x5e\x04\x04\x00\x01\x00\x00\xa7\x5e\x04\x04\x01\x02\x00\x00\xa7\x5e\x03\x02\x00\x02\x00",
        &list,
        refusal(12, Layer::Bytes, 22),
    )?;
    refuses(&rt, &[0u8; 8193], &list, refusal(1, Layer::Bytes, 8193))
}
