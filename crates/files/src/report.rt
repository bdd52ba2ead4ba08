// The printed report of a plan.
ghost use Rattle.std.specs.Prelude.{◌≡◌, ◌+◌, ◌<◌, ◌≤◌, [], ◌∷◌, ◌++◌, length, codes, decimal};
ghost use Rattle.files.specs.Printing.{Writes};
ghost use Rattle.files.specs.Report.{bound_text, line_of, report};
ghost use Rattle.files.specs.Text.{written, HasRoom};

use crate::fault::ByteFault;
use crate::text::Text;
use planning::plan::{Plan, Row};

// Puts a number and a byte behind it.
#[tactic(auto, using(crate::proofs::Texts::decimal_short))]
fn push_number(text: &mut Text, n: u64, end: u8)
    requires { HasRoom text.old 21 }
    ensures bytes { written text.new ≡ written text.old ++ (decimal n ++ end ∷ []) }
    ensures longer { length (written text.new) ≤ length (written text.old) + 21 }
{
    text.push_number(n);
    text.push(&[end]);
}

// Puts a bound, or `-` where there is none, and a blank.
fn push_bound(text: &mut Text, bound: Option<u16>)
    requires { HasRoom text.old 21 }
    ensures bytes { written text.new ≡ written text.old ++ (bound_text bound ++ codes " ") }
    ensures longer { length (written text.new) ≤ length (written text.old) + 21 }
{
    match bound {
        Some(ticks) => push_number(text, u64::from(ticks), b' '),
        None => text.push(b"- "),
    }
}

// Puts the line of a task with its row and its bound.
fn push_line(text: &mut Text, task: usize, row: &Row, bound: Option<u16>)
    requires { HasRoom text.old 84 }
    ensures bytes { written text.new ≡ written text.old ++ line_of task row.now bound }
    ensures longer { length (written text.new) ≤ length (written text.old) + 84 }
{
    push_number(text, task as u64, b' ');
    push_number(text, u64::from(row.rank), b' ');
    push_bound(text, bound);
    push_number(text, u64::from(row.hold), b'\n');
}

// Writes the report of a plan that was made with so many questions, and answers its length.
pub fn print_plan(plan: &Plan, questions: u32, out: &mut [u8]) -> Result<usize, ByteFault>
    ensures { Writes (report plan.now questions) out.old out.new result }
{
    let mut text = Text::new();
    text.push(b"task rank bound hold\n");
    for (task, row) in plan.rows().iter().enumerate() {
        push_line(&mut text, task, row, plan.response(task));
    }
    text.push(b"tests ");
    push_number(&mut text, u64::from(questions), b'\n');
    text.copy_to(out)
}
