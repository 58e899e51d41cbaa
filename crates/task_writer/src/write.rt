// Writing a task file.
ghost use Rattle.std.specs.Prelude.{◌≡◌, length};
ghost use Rattle.task.specs.Lending.{lent_tables};
ghost use Rattle.task.specs.Table.{task_of};
ghost use Rattle.file_format.specs.Bytes.{file_of};
ghost use Rattle.task_writer.specs.Inner.Putting.{Put, WriteIn};
ghost use Rattle.task_writer.specs.Writing.{write_answered, wrote, write_outcome};

use crate::put_row::put_head;
use crate::put_tables::{put_rows, put_state, put_words};
use task::Table;
use task::check::check;
use task::refusal::Refusal;
use task::tables::Tables;

// The bytes of a task, from the front; what does not fit is only counted. Linear in the counts.
fn put_task(out: &mut [u8], tables: &Tables<'_>) -> usize
    requires { WriteIn (lent_tables tables.now) }
    ensures { Put (file_of (task_of (lent_tables tables.now))) 0 result out.old out.new }
{
    let head = tables.head;
    let (formulas, effects, operators) = (tables.formulas, tables.effects, tables.operators);
    let to_state = put_head(out, head);
    let to_twins = put_state(out, to_state, &tables.initial[..head.variables as usize]);
    let to_formulas = put_words(out, to_twins, &tables.twins[..head.twins as usize]);
    let to_effects = put_rows(
        out,
        to_formulas,
        Table::Formulas,
        formulas,
        head.formulas as usize,
    );
    let to_operators = put_rows(
        out,
        to_effects,
        Table::Effects,
        effects,
        head.effects as usize,
    );
    put_rows(
        out,
        to_operators,
        Table::Operators,
        operators,
        head.operators as usize,
    )
}

// Writes the file of lent tables, and tells its length. One pass over the tables, after their check; clearing is linear in the output.
pub fn write(tables: &Tables<'_>, out: &mut [u8]) -> Result<usize, Refusal>
    ensures { wrote (write_answered result) out.new ≡ write_outcome (lent_tables tables.now) (length out.old) }
{
    out.fill(0); // as a refusal leaves it, and past the file
    check(tables)?;
    let end = put_task(out, tables);
    if out.len() < end {
        out.fill(0);
        return Err(Refusal::ShortOutput);
    }
    Ok(end)
}
