// What the fault of a question tells.
ghost use Rattle.analysis.specs.Question.{question_refusal};
ghost use Rattle.std.specs.Prelude.{◌≡◌};

use super::QuestionFault;
use tasks::fault::{Layer, Refusal, Refuses};

impl Refuses for QuestionFault {
    ghost told = { question_refusal };

    fn refusal(self) -> Refusal {
        match self {
            QuestionFault::IllPut(place) => Refusal {
                number: 17,
                layer: Layer::Plan,
                place,
            },
        }
    }
}
