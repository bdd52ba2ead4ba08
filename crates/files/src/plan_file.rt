// Reading and writing a plan file.
ghost use Rattle.std.specs.Prelude.{◌≡◌, Ok, Err, MatchResult};
ghost use Rattle.files.specs.PlanFiles.{plan_rules, decoded_plan, row_record, encoded_plan, ReadsPlan, ReadsPlanFiles};
ghost use Rattle.files.specs.Printing.{Writes};
ghost use Rattle.files.specs.RowLaws.{same_list, same_list_on, same_plan_rules, row_short};
ghost use Rattle.planning.specs.Plans.{open_rows, list_of, rows as rows_of};
ghost use Rattle.planning.specs.declared.plan.Row.{Row as PlanRow};

use crate::fault::{ByteFault, FileFault, PlanFileFault};
use crate::gather::{Gather, check_size, gather_rows};
use crate::lay::{Lay, push_record, write_rows};
use crate::record::{FileKind, Kind, Record};
use crate::text::Text;
use planning::fault::RowFault;
use planning::plan::{OpenPlan, Plan, Row};
use tasks::list::TaskList;

impl Gather for OpenPlan {
    type Fault = RowFault;

    ghost Row = { PlanRow };

    ghost rows = { open_rows };

    ghost rules = { λ plan. plan_rules plan.list };

    ghost same_but_rows = { λ old new. new.list ≡ old.list };

    ghost same = { same_list };

    ghost same_on = { same_list_on };

    ghost same_rules = { same_plan_rules };

    fn kind(&self) -> FileKind {
        FileKind::Plan
    }

    fn add_record(&mut self, at: u64, record: Record<'_>) -> Result<(), PlanFileFault> {
        let Record::Plan { task, row } = record else {
            return Err(FileFault::Bytes(ByteFault::WrongKind(at)));
        };
        self.row(at, usize::from(task), row)?;
        Ok(())
    }
}

impl Lay for Row {
    ghost record_of = { row_record };

    ghost short = { row_short };

    fn push(&self, number: usize, text: &mut Text) {
        let [h0, h1] = self.hold.to_be_bytes();
        push_record(text, Kind::Plan, &[number as u8, self.rank, h0, h1], &[]);
    }
}

// The plan that a plan file says for a list.
#[tactic(auto, using(crate::proofs::Decodes::too_long))]
fn plan_in(bytes: &[u8], list: &TaskList) -> Result<Plan, PlanFileFault>
    ensures { MatchResult result (λ p. (decoded_plan list.now bytes.now ≡ Ok (rows_of p)) × (list_of p ≡ list.now)) (λ f. decoded_plan list.now bytes.now ≡ Err f) }
{
    check_size(bytes)?;
    let mut open = OpenPlan::begin(list);
    let end = gather_rows(bytes, &mut open)?;
    let plan = open.close().ok_or(end.wrong_count())?;
    end.check(bytes.len(), list.len())?;
    Ok(plan)
}

// Reads a plan file for a list into the lent plan. A refusal leaves that as it was.
pub fn read_plan(bytes: &[u8], list: &TaskList, place: &mut Plan) -> Result<(), PlanFileFault>
    ensures reads { ReadsPlan list.now bytes.now place.old place.new result }
    ensures reads_files { ReadsPlanFiles list.now bytes.now place.new result }
{
    *place = plan_in(bytes, list)?;
    Ok(())
}

// Writes a plan file and answers its length. Refused, with nothing written, exactly if the buffer is shorter.
pub fn write_plan(plan: &Plan, buffer: &mut [u8]) -> Result<usize, ByteFault>
    ensures writes { Writes (encoded_plan (rows_of plan.now)) buffer.old buffer.new result }
    ensures reads_back { decoded_plan (list_of plan.now) (encoded_plan (rows_of plan.now)) ≡ Ok (rows_of plan.now) }
{
    write_rows(plan.rows(), buffer)
}
