// Reading and writing a list file.
ghost use Rattle.std.specs.Prelude.{◌≡◌, ⊤, Ok, Err, refl, MatchResult};
ghost use Rattle.files.specs.ListFiles.{list_rules, decoded, task_record, encoded, Reads, ReadsFiles};
ghost use Rattle.files.specs.Printing.{Writes};
ghost use Rattle.files.specs.RowLaws.{task_short};
ghost use Rattle.tasks.specs.List.{Row as RowOf, row, rows as rows_of, listed, opened};

use crate::fault::{ByteFault, FileFault, ListFault};
use crate::gather::{Gather, check_size, gather_rows};
use crate::lay::{Lay, push_record, write_rows};
use crate::record::{FileKind, Kind, Record};
use crate::text::Text;
use tasks::fault::TaskFault;
use tasks::list::{OpenList, TaskList};
use tasks::task::Task;

// The longest file, in bytes.
pub const MAX_FILE: usize = 8_192;

impl Gather for OpenList {
    type Fault = TaskFault;

    ghost Row = { RowOf };

    ghost rows = { λ list. rows_of (opened list) };

    ghost rules = { λ _. list_rules };

    ghost same_but_rows = { λ _ _. ⊤ };

    ghost same = { λ _. tt };

    ghost same_on = { λ _ _ _ _ _. tt };

    ghost same_rules = { λ _ _ _. refl };

    fn kind(&self) -> FileKind {
        FileKind::List
    }

    fn add_record(&mut self, at: u64, record: Record<'_>) -> Result<(), ListFault> {
        let Record::Task(row) = record else {
            return Err(FileFault::Bytes(ByteFault::WrongKind(at)));
        };
        self.add_at(at, row)?;
        Ok(())
    }
}

impl Lay for Task {
    ghost record_of = { λ _ task. task_record (row task) };

    ghost short = { λ _ task. task_short task };

    fn push(&self, _number: usize, text: &mut Text) {
        let [c0, c1] = self.cost.to_be_bytes();
        let [p0, p1] = self.period.to_be_bytes();
        let numbers = [self.preference.into(), c0, c1, p0, p1];
        push_record(text, Kind::Task, &numbers, self.name.bytes());
    }
}

// The closed list that a list file says.
#[tactic(auto, using(crate::proofs::Decodes::too_long))]
fn list_in(bytes: &[u8]) -> Result<TaskList, ListFault>
    ensures { MatchResult result (λ l. decoded bytes.now ≡ Ok (rows_of (listed l))) (λ f. decoded bytes.now ≡ Err f) }
{
    check_size(bytes)?;
    let mut open = OpenList::new();
    let end = gather_rows(bytes, &mut open)?;
    let list = open.close();
    end.check(bytes.len(), list.len())?;
    Ok(list)
}

// Reads a list file into the lent list. A refusal leaves that as it was.
pub fn read_list(bytes: &[u8], place: &mut TaskList) -> Result<(), ListFault>
    ensures reads { Reads bytes.now place.old place.new result }
    ensures reads_files { ReadsFiles bytes.now place.new result }
{
    *place = list_in(bytes)?;
    Ok(())
}

// Writes a list file and answers its length. Refused, with nothing written, exactly if the buffer is shorter.
pub fn write_list(list: &TaskList, buffer: &mut [u8]) -> Result<usize, ByteFault>
    ensures writes { Writes (encoded (rows_of (listed list.now))) buffer.old buffer.new result }
    ensures reads_back { decoded (encoded (rows_of (listed list.now))) ≡ Ok (rows_of (listed list.now)) }
{
    write_rows(list.tasks(), buffer)
}
