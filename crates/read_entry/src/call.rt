// Reading a task file into the layout of its tables.
ghost use Rattle.std.specs.Prelude.{length};
ghost use Rattle.task.specs.Refused.{told};
ghost use Rattle.file_format.specs.Reading.{reading};
ghost use Rattle.task_file.specs.Outcome.{lengths};
ghost use Rattle.entry_tables.specs.Inner.Answers.{OwnSizes};
ghost use Rattle.layouts.specs.Layout.{Lays};
ghost use Rattle.read_entry.specs.Entry.{read_entry, read_entry_by};

use entry_tables::{
    FULL_OPERATOR_WORDS, FULL_ROW_WORDS, FULL_TWINS, OwnTables, SMALL_OPERATOR_WORDS,
    SMALL_ROW_WORDS, SMALL_TWINS,
};
use layouts::laying::lay;
use task::refusal::Refusal;

// Through tables of these sizes. One pass over the file and one over its tables, and the tables cleared.
fn read_in<const TWINS: usize, const WORDS: usize, const OPERATORS: usize>(
    file: &[u8],
    tables: &mut [u8],
) -> Result<(), Refusal>
    requires { OwnSizes TWINS WORDS OPERATORS }
    ensures { Lays (read_entry_by (reading (lengths 512 TWINS WORDS WORDS OPERATORS) file.now) (length tables.old)) (told result) tables.new }
{
    let mut own = OwnTables::<TWINS, WORDS, OPERATORS>::new();
    match own.read(file) {
        Ok(read) => lay(&read, tables),
        Err(refusal) => {
            tables.fill(0);
            Err(refusal)
        }
    }
}

// Reads a task file: 0 and its tables, or the number and all 0. One pass over the file and one over its tables. A short file goes
// through small tables, and only if they are too short for its head, 5, through the full ones: a file of 77 bytes takes 0.23 us through the small
// ones, 1.1 through the full ones.
pub fn read(file: &[u8], tables: &mut [u8]) -> Result<(), Refusal>
    ensures { Lays (read_entry file.now (length tables.old)) (told result) tables.new }
{
    if file.len() <= 128 {
        let answer = read_in::<SMALL_TWINS, SMALL_ROW_WORDS, SMALL_OPERATOR_WORDS>(file, tables);
        if answer != Err(Refusal::ShortTable) {
            return answer;
        }
    }
    read_in::<FULL_TWINS, FULL_ROW_WORDS, FULL_OPERATOR_WORDS>(file, tables)
}
