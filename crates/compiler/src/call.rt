// The compiling call.
ghost use Rattle.std.specs.Prelude.{◌≡◌};
ghost use Rattle.task.specs.Lending.{lent_tables};
ghost use Rattle.normal_form.specs.Compiled.{compiling};
ghost use Rattle.compiler.specs.Left.{tables, room_of};
ghost use Rattle.compiler.specs.Left.{compile_left};

use crate::Lengths;
use crate::clear::clear_all;
use crate::frames::fill;
use crate::heads::compiled_head;
use crate::numbers::first_number;
use crate::sizes::counts_of;
use task::Head;
use task::refusal::Refusal;
use task::tables::Tables;

// The tables' own refusal, one for twins, for short scratch, for no room; or the compiled task, in values, originals, table (formulas), out
// (effects) and written (operators). After a refusal all of them are 0; scratch always ends as 0. Costs the check of the tables, a walk over
// what is lent, and the filling.
pub fn compile(
    source: &Tables<'_>,
    values: &mut [u8],
    originals: &mut [u16],
    table: &mut [u16],
    out: &mut [u16],
    written: &mut [u16],
    scratch: &mut [u16],
) -> Result<Head, Refusal>
    ensures { compile_left result (tables values.new originals.new table.new out.new written.new scratch.new) ≡ compiling (lent_tables source.now) (room_of (tables values.old originals.old table.old out.old written.old scratch.old)) }
{
    clear_all(values, originals, table, out, written, scratch);
    let lengths = Lengths {
        values: values.len(),
        originals: originals.len(),
        table: table.len(),
        out: out.len(),
        written: written.len(),
        scratch: scratch.len(),
    };
    first_number(source, lengths)?;
    let counts = counts_of(source.head, lengths);
    let Ok(filled) = fill(
        counts, source, values, originals, table, out, written, scratch,
    ) else {
        return Err(Refusal::NoRoom);
    };
    scratch.fill(0);
    Ok(compiled_head(source.head, filled))
}
