// The tables of rows.
ghost use Rattle.std.specs.Prelude.{◌≡◌, ◌*◌, length};
ghost use Rattle.task.specs.Inner.Tables.{width};
ghost use Rattle.task_file.specs.Inner.Answers.{left_as, refused_row};
ghost use Rattle.task_file.specs.Inner.Tables.{words_read};

use crate::read_row::Row;
use crate::reader::Reader;
use task::refusal::Refusal;
use task::table_rows::store_row;
use task::{Head, Table};

// A row's refusal, as that of its table. Constant time.
fn refused(row: Row) -> Result<(), Refusal>
    ensures { result ≡ refused_row row }
{
    match row {
        Row::NoRow(refusal) => Err(refusal),
        Row::Words(_) => Ok(()),
    }
}

impl Reader<'_> {
    // So many rows of a table, as `words`. Linear in the count.
    pub fn rows(
        &mut self,
        table: Table,
        head: Head,
        count: usize,
        words: &mut [u16],
    ) -> Result<(), Refusal>
        requires { length words.old ≡ width table * count }
        ensures { left_as words.new result self.new ≡ words_read table head count self.old }
    {
        for i in 0..count {
            let row = self.row(table, head, i);
            let Row::Words(kept) = row else {
                return refused(row);
            };
            store_row(table, words, i, kept);
        }
        Ok(())
    }
}
