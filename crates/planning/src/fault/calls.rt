// What the faults of planning tell.
ghost use Rattle.planning.specs.Faults.{plan_refusal, row_refusal};
ghost use Rattle.std.specs.Prelude.{◌≡◌};

use super::{PlanFault, RowFault};
use tasks::fault::{Layer, Refusal, Refuses};

impl Refuses for PlanFault {
    ghost told = { plan_refusal };

    // The place is the set left over.
    fn refusal(self) -> Refusal {
        let PlanFault::LeftOver(tally) = self;
        Refusal {
            number: 16,
            layer: Layer::Plan,
            place: u64::from(tally.left),
        }
    }
}

impl Refuses for RowFault {
    ghost told = { row_refusal };

    fn refusal(self) -> Refusal {
        let (number, place) = match self {
            RowFault::WrongTask(place) => (13, place),
            RowFault::WrongRank(place) => (14, place),
            RowFault::WrongHold(place) => (15, place),
        };
        Refusal {
            number,
            layer: Layer::Plan,
            place,
        }
    }
}
