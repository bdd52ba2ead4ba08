// Plans made row by row.
use crate::says::{is_refused, refusal, two_tasks};
use planning::plan::{OpenPlan, Row};
use std::test::Fail;
use tasks::fault::Layer;

// A row with this rank and this hold.
fn row(rank: u8, hold: u16) -> Row {
    Row { rank, hold }
}

#[test]
fn by_rows(rt: HostRuntime) -> Result<(), Fail> {
    let list = two_tasks(&rt)?;
    let mut rows = OpenPlan::begin(&list);
    is_refused(
        &rt,
        rows.row(70, 1, row(1, 0)),
        refusal(13, Layer::Plan, 70),
    )?;
    is_refused(
        &rt,
        rows.row(70, 0, row(0, 0)),
        refusal(14, Layer::Plan, 70),
    )?;
    is_refused(
        &rt,
        rows.row(70, 0, row(3, 0)),
        refusal(14, Layer::Plan, 70),
    )?;
    is_refused(
        &rt,
        rows.row(70, 0, row(2, 1)),
        refusal(15, Layer::Plan, 70),
    )?;
    rows.row(70, 0, row(2, 0))?;
    is_refused(
        &rt,
        rows.row(70, 0, row(1, 0)),
        refusal(13, Layer::Plan, 70),
    )?;
    is_refused(
        &rt,
        rows.row(70, 1, row(2, 0)),
        refusal(14, Layer::Plan, 70),
    )?;
    is_refused(
        &rt,
        rows.row(70, 1, row(1, 10)),
        refusal(15, Layer::Plan, 70),
    )?;
    rows.row(70, 1, row(1, 9))?;
    is_refused(
        &rt,
        rows.row(70, 2, row(1, 0)),
        refusal(13, Layer::Plan, 70),
    )?;
    let plan = rows.close().ok_or_else(|| Fail::new("rows are missing"))?;
    assert_eq!(rt; plan.rank(0), Some(2));
    assert_eq!(rt; plan.hold(1), Some(9));
    // the card's response is 2, and 9 + 2 is above 10
    assert_eq!(rt; plan.response(1), Some(2));
    assert!(rt; !plan.judge());
    Ok(())
}

// Hold 8 is the longest that is judged yes.
#[test]
fn longest_hold(rt: HostRuntime) -> Result<(), Fail> {
    let list = two_tasks(&rt)?;
    let mut rows = OpenPlan::begin(&list);
    rows.row(0, 0, row(2, 0))?;
    rows.row(1, 1, row(1, 8))?;
    let plan = rows.close().ok_or_else(|| Fail::new("rows are missing"))?;
    assert!(rt; plan.judge());
    assert!(rt; OpenPlan::begin(&list).close().is_none());
    Ok(())
}
