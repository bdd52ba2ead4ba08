// Laying out the records of a file.
ghost use Rattle.std.specs.Prelude.{◌≡◌, ℕ, ◌+◌, ◌<◌, ◌≤◌, ◌++◌, List, length};
ghost use Rattle.files.specs.Format.{kind_number};
ghost use Rattle.files.specs.Layout.{laid, encoded_by};
ghost use Rattle.files.specs.Printing.{Writes};
ghost use Rattle.files.specs.Text.{written, HasRoom};

use crate::fault::ByteFault;
use crate::record::{Kind, MARK_FIRST, MARK_SECOND};
use crate::text::Text;

// A row that can be laid out as a record.
pub(crate) trait Lay {
    // The record of a row with its number.
    ghost record_of: { ℕ → Self → List ℕ };

    // Puts the record of the row with this number behind the text.
    fn push(&self, number: usize, text: &mut Text)
        requires few { number < 32 }
        requires room { HasRoom text.old 25 }
        ensures { written text.new ≡ written text.old ++ record_of number self.now };

    // A record has at most 25 bytes.
    ghost short: { (k : ℕ) (x : Self) → length (record_of k x) ≤ 25 };
}

// Puts a record of this kind behind the text; its body is `numbers`, and `name` behind them.
pub(crate) fn push_record(text: &mut Text, kind: Kind, numbers: &[u8], name: &[u8])
    requires body { length numbers.now + length name.now ≤ 21 }
    requires room { HasRoom text.old 25 }
    ensures { written text.new ≡ written text.old ++ laid (kind_number kind) (numbers.now ++ name.now) }
{
    let len = numbers.len() + name.len();
    text.push(&[MARK_FIRST, MARK_SECOND, kind.into(), len as u8]);
    text.push(numbers);
    text.push(name);
}

// Writes the file of these rows and answers its length. Refused, with nothing written, exactly if the buffer is shorter.
pub(crate) fn write_rows<R: Lay>(rows: &[R], buffer: &mut [u8]) -> Result<usize, ByteFault>
    requires { length rows.now ≤ 32 }
    ensures { Writes (encoded_by R.record_of rows.now) buffer.old buffer.new result }
{
    let mut text = Text::new();
    for (number, row) in rows.iter().enumerate() {
        row.push(number, &mut text);
    }
    push_record(
        &mut text,
        Kind::End,
        &(rows.len() as u16).to_be_bytes(),
        &[],
    );
    text.copy_to(buffer)
}
