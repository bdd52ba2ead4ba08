// What is answered and printed, against what should be, and tasks in one line.
use files::program::Outcome;
use files::program::calls::plan_file;
use std::process::Abort;
use std::test::Fail;
use tasks::fault::{Layer, Refusal, Refuses};
use tasks::list::{OpenList, TaskList};
use tasks::task::TaskRow;

// A task as it is handed in.
pub(crate) fn task(name: &[u8], preference: u8, cost: u16, period: u16) -> TaskRow<'_> {
    TaskRow {
        name,
        preference,
        cost,
        period,
    }
}

// A list of an ASAP task (1,5) and an ALAP task (1,10).
pub(crate) fn two_tasks(rt: &impl Abort) -> Result<TaskList, Fail> {
    let mut open = OpenList::new();
    assert_eq!(rt; open.add(task(b"read", 0, 1, 5))?, 0);
    assert_eq!(rt; open.add(task(b"card", 1, 1, 10))?, 1);
    Ok(open.close())
}

// The refusal with this number, layer and place.
pub(crate) fn refusal(number: u8, layer: Layer, place: u64) -> Refusal {
    Refusal {
        number,
        layer,
        place,
    }
}

// The answer is this refusal.
pub(crate) fn is_refused<T: Drop, F: Refuses>(
    rt: &impl Abort,
    answer: Result<T, F>,
    expected: Refusal,
) -> Result<(), Fail> {
    let Err(fault) = answer else {
        return Err(Fail::new("not refused"));
    };
    assert_eq!(rt; fault.refusal(), expected);
    Ok(())
}

// The input comes to this, and this is printed.
fn says(rt: &impl Abort, input: &[u8], outcome: Outcome, expected: &[u8]) -> Result<(), Fail> {
    let mut out = [0u8; 1024];
    assert_eq!(rt; plan_file(input, &mut out)?, outcome);
    assert!(rt; out.starts_with(expected));
    Ok(())
}

// The input gets a plan, and this report of it is printed.
pub(crate) fn plans(rt: &impl Abort, input: &[u8], expected: &[u8]) -> Result<(), Fail> {
    says(rt, input, Outcome::Planned(expected.len()), expected)
}

// The input gets no plan, and this line is printed.
pub(crate) fn refuses(rt: &impl Abort, input: &[u8], expected: &[u8]) -> Result<(), Fail> {
    says(rt, input, Outcome::Refused(expected.len()), expected)
}
