// The lines that are printed.
ghost use Rattle.files.specs.Printing.{fault_line, Writes};

use crate::fault::ByteFault;
use crate::text::Text;
use tasks::fault::Refusal;

// Writes the line of a refusal, `refused NUMBER LAYER PLACE`, and answers its length.
#[tactic(auto, using(crate::proofs::Texts::word_short, crate::proofs::Texts::decimal_short))]
pub fn print_fault(refusal: Refusal, out: &mut [u8]) -> Result<usize, ByteFault>
    ensures { Writes (fault_line refusal) out.old out.new result }
{
    let mut line = Text::new();
    line.push(b"refused ");
    line.push_number(u64::from(refusal.number));
    line.push(b" ");
    line.push(refusal.layer.word());
    line.push(b" ");
    line.push_number(refusal.place);
    line.push(b"\n");
    line.copy_to(out)
}
