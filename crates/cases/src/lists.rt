// Adding tasks by hand.
use crate::says::{is_refused, refusal, task};
use std::test::Fail;
use tasks::fault::Layer;
use tasks::list::OpenList;
use tasks::task::Preference;

#[test]
fn limits(rt: HostRuntime) -> Result<(), Fail> {
    let mut list = OpenList::new();
    assert_eq!(rt; list.add(task(b"first", 0, 1, 60_000))?, 0);
    is_refused(
        &rt,
        list.add(task(b"a", 2, 0, 0)),
        refusal(6, Layer::Task, 1),
    )?;
    is_refused(
        &rt,
        list.add(task(b"a", 1, 0, 0)),
        refusal(7, Layer::Task, 1),
    )?;
    is_refused(
        &rt,
        list.add(task(b"a", 1, 6, 5)),
        refusal(8, Layer::Task, 1),
    )?;
    is_refused(
        &rt,
        list.add(task(b"a", 1, 60_001, 60_001)),
        refusal(9, Layer::Task, 1),
    )?;
    is_refused(
        &rt,
        list.add(task(b"", 1, 1, 5)),
        refusal(5, Layer::Task, 1),
    )?;
    is_refused(
        &rt,
        list.add(task(b"seventeen bytes!!", 1, 1, 5)),
        refusal(5, Layer::Task, 1),
    )?;
    assert_eq!(rt; list.add(task(b"sixteen bytes ok", 1, 5, 5))?, 1);
    assert_eq!(rt; list.close().len(), 2);
    Ok(())
}

#[test]
fn reading(rt: HostRuntime) -> Result<(), Fail> {
    let mut open = OpenList::new();
    assert_eq!(rt; open.add(task(b"card", 1, 4, 50))?, 0);
    let list = open.close();
    let listed = list.task(0).ok_or_else(|| Fail::new("not listed"))?;
    assert!(rt; listed.name.bytes() == b"card".as_slice());
    assert_eq!(rt; listed.preference, Preference::Alap);
    assert_eq!(rt; listed.cost, 4);
    assert_eq!(rt; listed.period, 50);
    assert!(rt; list.task(1).is_none());
    Ok(())
}

// 32 tasks fit, and the 33rd is refused, even if its name is too long as well.
#[test]
fn full_list(rt: HostRuntime) -> Result<(), Fail> {
    let mut list = OpenList::new();
    for k in 0..32usize {
        assert_eq!(rt; list.add(task(b"a", 0, 1, 100))?, k);
    }
    is_refused(
        &rt,
        list.add(task(b"seventeen bytes!!", 1, 1, 5)),
        refusal(10, Layer::Task, 32),
    )?;
    assert_eq!(rt; list.close().len(), 32);
    Ok(())
}
