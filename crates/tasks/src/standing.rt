// The standing list that every mat carries, built in.
ghost use Rattle.std.specs.Prelude.{◌≡◌, [], ◌∷◌, ◌++◌, length, None};
ghost use Rattle.tasks.specs.List.{rows, listed, opened, row_said, add_fault};
ghost use Rattle.tasks.specs.Standing.{standing};

use crate::list::{OpenList, TaskList};
use crate::task::TaskRow;

const TABLE: [TaskRow<'static>; 8] = [
    TaskRow {
        name: b"antenna-a",
        preference: 0,
        cost: 1,
        period: 5,
    },
    TaskRow {
        name: b"antenna-b",
        preference: 0,
        cost: 1,
        period: 5,
    },
    TaskRow {
        name: b"pick",
        preference: 0,
        cost: 2,
        period: 20,
    },
    TaskRow {
        name: b"beep",
        preference: 0,
        cost: 1,
        period: 50,
    },
    TaskRow {
        name: b"card",
        preference: 1,
        cost: 4,
        period: 50,
    },
    TaskRow {
        name: b"radio",
        preference: 1,
        cost: 5,
        period: 100,
    },
    TaskRow {
        name: b"clock",
        preference: 1,
        cost: 2,
        period: 200,
    },
    TaskRow {
        name: b"battery",
        preference: 1,
        cost: 1,
        period: 1000,
    },
];

// Adds a row of the table, which can be added at its place.
fn add_row(list: &mut OpenList, row: TaskRow<'static>)
    requires { add_fault (length (opened list.old)) (length (opened list.old)) (row_said row) ≡ None }
    ensures { rows (opened list.new) ≡ rows (opened list.old) ++ row_said row.entry ∷ [] }
{
    list.add(row).unwrap();
}

// The standing list, closed.
pub fn standing_list() -> TaskList
    ensures { rows (listed result) ≡ standing }
{
    let mut list = OpenList::new();
    for row in TABLE {
        add_row(&mut list, row);
    }
    list.close()
}
