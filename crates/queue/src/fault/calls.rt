// What the fault of a queue tells.
ghost use Rattle.queue.specs.Faults.{queue_refusal};
ghost use Rattle.std.specs.Prelude.{◌≡◌};

use super::QueueFault;
use tasks::fault::{Layer, Refusal, Refuses};

impl Refuses for QueueFault {
    ghost told = { queue_refusal };

    // The place is the length available.
    fn refusal(self) -> Refusal {
        let QueueFault::Full(place) = self;
        Refusal {
            number: 22,
            layer: Layer::Run,
            place,
        }
    }
}
