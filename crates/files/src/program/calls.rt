// Planning a list file.
ghost use Rattle.files.specs.Program.{fault_refusal, Prints, Plans};
ghost use Rattle.files.specs.declared.program.Fault.TheVariants.{List, Plan as PlanOf};
ghost use Rattle.std.specs.Prelude.{◌≡◌};

use super::{Fault, Outcome};
use crate::fault::{ByteFault, ListFault};
use crate::list_file::read_list;
use crate::print::print_fault;
use crate::report::print_plan;
use planning::fault::{PlanFault, Tally};
use planning::plan::Plan;
use planning::plan::planner::plan_exact;
use tasks::fault::{Refusal, Refuses};
use tasks::list::OpenList;

impl Refuses for Fault {
    ghost told = { fault_refusal };

    fn refusal(self) -> Refusal {
        match self {
            Fault::List(fault) => fault.refusal(),
            Fault::Plan(fault) => fault.refusal(),
        }
    }
}

impl From<ListFault> for Fault {
    ghost from_gives = { λ f r. r ≡ List f };

    fn from(fault: ListFault) -> Fault {
        Fault::List(fault)
    }
}

impl From<PlanFault> for Fault {
    ghost from_gives = { λ f r. r ≡ PlanOf f };

    fn from(fault: PlanFault) -> Fault {
        Fault::Plan(fault)
    }
}

// Reads a list file and plans its list by the exact test, into the lent plan.
fn plan_list(input: &[u8], plan: &mut Plan) -> Result<Tally, Fault>
    ensures { Plans input.now plan.new result }
{
    let mut list = OpenList::new().close();
    read_list(input, &mut list)?;
    Ok(plan_exact(&list, plan)?)
}

// Plans a list file and prints what came of it: the report of the plan, or the line of the refusal. Where the buffer is too
// short for that, nothing is printed.
pub fn plan_file(input: &[u8], out: &mut [u8]) -> Result<Outcome, ByteFault>
    ensures { Prints input.now out.old out.new result }
{
    let mut plan = Plan::empty();
    match plan_list(input, &mut plan) {
        Ok(tally) => Ok(Outcome::Planned(print_plan(&plan, tally.questions, out)?)),
        Err(fault) => Ok(Outcome::Refused(print_fault(fault.refusal(), out)?)),
    }
}
