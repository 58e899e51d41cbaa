// Reading a task file.
ghost use Rattle.std.specs.Prelude.{◌≡◌, length};
ghost use Rattle.file_format.specs.Reading.{reading};
ghost use Rattle.task_file.specs.Outcome.{lengths, read_answered, read_left, read_outcome};
ghost use Rattle.task_file.specs.Inner.Filled.{Filled};

use crate::clear::{clear_behind, clear_tables};
use crate::reader::Reader;
use task::Head;
use task::refusal::Refusal;
use task::tables::Lengths;

// A file into the front of the tables, and 0 into all behind. After a refusal they are left as they came out.
fn fill(
    file: &[u8],
    initial: &mut [u8],
    twins: &mut [u16],
    formulas: &mut [u16],
    effects: &mut [u16],
    operators: &mut [u16],
) -> Result<Head, Refusal>
    ensures { let l = lengths (length initial.old) (length twins.old) (length formulas.old) (length effects.old) (length operators.old) in Filled l (reading l file.now) result initial.new twins.new formulas.new effects.new operators.new }
{
    let mut reader = Reader::new(file);
    let head = reader.kept_head(Lengths {
        initial: initial.len(),
        twins: twins.len(),
        formulas: formulas.len(),
        effects: effects.len(),
        operators: operators.len(),
    })?;
    reader.tables(head, initial, twins, formulas, effects, operators)?;
    reader.end()?;
    clear_behind(head, initial, twins, formulas, effects, operators);
    Ok(head)
}

// Reads a task file into lent tables. One pass over the file; clearing is linear in what is lent.
pub fn read(
    file: &[u8],
    initial: &mut [u8],
    twins: &mut [u16],
    formulas: &mut [u16],
    effects: &mut [u16],
    operators: &mut [u16],
) -> Result<Head, Refusal>
    ensures { read_left (read_answered result) initial.new twins.new formulas.new effects.new operators.new ≡ read_outcome (lengths (length initial.old) (length twins.old) (length formulas.old) (length effects.old) (length operators.old)) file.now }
{
    let answer = fill(file, initial, twins, formulas, effects, operators);
    if answer.is_err() {
        clear_tables(initial, twins, formulas, effects, operators);
    }
    answer
}
