// Planning a list: by any test, and by the exact test.
ghost use Rattle.analysis.specs.Response.{response};
ghost use Rattle.planning.specs.Choices.{RoundsByTheRules, Stuck};
ghost use Rattle.planning.specs.Planning.{tally as tally_of, answered, Written, Few, Whole, RowsDecide};
ghost use Rattle.planning.specs.Plans.{Fits};
ghost use Rattle.std.specs.Prelude.{◌≡◌, true, false, is_ok};

use super::{OpenPlan, Plan};
use crate::fault::{PlanFault, Tally};
use crate::rounds::calls::rounds;
use analysis::exact::ExactTest;
use analysis::test::Test;
use fixed::fixed_vec::FixedVec;
use tasks::list::TaskList;

// Plans the list by the test. If every task is placed, the plan is written to `place`; otherwise the call is refused, with the
// same tally, and `place` stays as it was.
pub fn plan<T: Test>(test: &T, list: &TaskList, place: &mut Plan) -> Result<Tally, PlanFault>
    ensures answer { result ≡ answered (tally_of (T.bound test.now list.now) list.now) }
    ensures rounds_by_the_rules { RoundsByTheRules (T.bound test.now list.now) list.now }
    ensures written { is_ok result ≡ true → Written (T.bound test.now list.now) list.now place.new }
    ensures untouched { is_ok result ≡ false → place.new ≡ place.old }
    ensures judged_yes { is_ok result ≡ true → Fits place.new }
    ensures left_over_have_no_bound { Stuck (T.bound test.now list.now) (tally_of (T.bound test.now list.now) list.now).left }
    ensures few_questions { Few list.now (tally_of (T.bound test.now list.now) list.now) }
    ensures placed_and_left_are_all { Whole list.now (tally_of (T.bound test.now list.now) list.now) }
{
    let draft = rounds(test, list);
    let left = draft.unplaced;
    let placed = list.len() - left.count_ones() as usize;
    let tally = Tally {
        placed,
        questions: draft.questions,
        left,
    };
    if left != 0 {
        return Err(PlanFault::LeftOver(tally));
    }
    let made = OpenPlan {
        list: *list,
        rows: FixedVec::first_of(draft.rows, list.len()),
    };
    *place = Plan { made };
    Ok(tally)
}

// Plans the list by the exact test.
pub fn plan_exact(list: &TaskList, place: &mut Plan) -> Result<Tally, PlanFault>
    ensures answer { result ≡ answered (tally_of (response list.now) list.now) }
    ensures rounds_by_the_rules { RoundsByTheRules (response list.now) list.now }
    ensures written { is_ok result ≡ true → Written (response list.now) list.now place.new }
    ensures untouched { is_ok result ≡ false → place.new ≡ place.old }
    ensures judged_yes { is_ok result ≡ true → Fits place.new }
    ensures left_over_have_no_bound { Stuck (response list.now) (tally_of (response list.now) list.now).left }
    ensures few_questions { Few list.now (tally_of (response list.now) list.now) }
    ensures rows_decide { RowsDecide list.now }
    ensures placed_and_left_are_all { Whole list.now (tally_of (response list.now) list.now) }
{
    plan(&ExactTest, list, place)
}
