// Putting bytes and numbers into a text, and writing it into a buffer.
ghost use Rattle.std.specs.Prelude.{◌≡◌, ◌+◌, ◌≤◌, [], ◌++◌, length, decimal};
ghost use Rattle.files.specs.Printing.{Writes};
ghost use Rattle.files.specs.Text.{written, HasRoom};

use super::Text;
use crate::fault::ByteFault;
use fixed::fixed_vec::FixedVec;
use itoa::Buffer;

impl Text {
    // A text with no bytes.
    pub(crate) fn new() -> Text
        ensures { written result ≡ [] }
    {
        Text {
            bytes: FixedVec::new(0),
        }
    }

    // Puts the bytes behind those that the text has.
    pub(crate) fn push(&mut self, part: &[u8])
        requires { HasRoom self.old (length part.now) }
        ensures bytes { written self.new ≡ written self.old ++ part.now }
        ensures longer { length (written self.new) ≡ length (written self.old) + length part.now }
    {
        self.bytes.extend_from_slice(part).unwrap();
    }

    // Puts the number behind what the text has, in decimal digits, by `itoa`: `write!` does not promise that it succeeds where there is
    // room. One digit, which most numbers of a report have, is put without it, since that is faster.
    #[tactic(auto, using(std::proofs::lemmas::Fmt::decimal_digit))]
    pub(crate) fn push_number(&mut self, n: u64)
        requires { HasRoom self.old (length (decimal n)) }
        ensures bytes { written self.new ≡ written self.old ++ decimal n }
        ensures longer { length (written self.new) ≡ length (written self.old) + length (decimal n) }
    {
        if n < 10 {
            self.push(&[48 + n as u8]);
        } else {
            self.push(Buffer::new().format(n).as_bytes());
        }
    }

    // Writes the text into the buffer and answers its length. Refused, with nothing written, exactly if the buffer is shorter.
    pub(crate) fn copy_to(&self, out: &mut [u8]) -> Result<usize, ByteFault>
        ensures { Writes (written self.now) out.old out.new result }
    {
        let text = self.bytes.as_slice();
        let len = text.len();
        if out.len() < len {
            return Err(ByteFault::ShortBuffer(out.len() as u64));
        }
        out[..len].copy_from_slice(text);
        Ok(len)
    }
}
