// All that is written, once everything is built: rules, operators, initial values, rows, twins.
ghost use Rattle.formula_builder.specs.Inner.Held.{done_step, size_in};
ghost use Rattle.compile_parts.specs.Inner.Finishes.{outputs, Stands, Finished};
ghost use Rattle.compile_parts.specs.Inner.FinishesBare.{bare_outputs, BareStands, BareFinished};

use crate::{Counts, Filled, NoRoom};
use assembling::assemble_operators;
use formula_builder::Builder;
use rule_writer::{Frame, write_initial};
use task::copying::copy_all;

// Writes the rules and the operators, then the initial values, and copies the rows that were built; with no room for all rules nothing of
// these two. Costs one step for each change that was recorded, each variable and each row.
pub fn finish_bare(
    counts: Counts,
    b: &Builder<'_>,
    goal: u16,
    initial: &[u8],
    operators: &[u16],
    records: &[u16],
    values: &mut [u8],
    table: &mut [u16],
    out: &mut [u16],
    written: &mut [u16],
) -> Result<Filled, NoRoom>
    requires { BareStands counts (done_step (size_in b.now) goal) initial.now operators.now b.now.originals.now b.now.table.now records.now (bare_outputs values.old table.old out.old written.old) }
    ensures { BareFinished counts (done_step (size_in b.now) goal) initial.now operators.now b.now.originals.now b.now.table.now records.now (bare_outputs values.old table.old out.old written.old) (bare_outputs values.new table.new out.new written.new) result }
{
    let variables = counts.frame.variables;
    let twins = b.twins;
    let effects = assemble_operators(
        operators,
        records,
        b.originals,
        counts.operators,
        Frame {
            variables,
            twins,
            room: counts.room,
        },
        out,
        written,
    )?;
    write_initial(initial, b.originals, values, variables, twins);
    let words = 3 * b.rows;
    copy_all(&mut table[..words], &b.table[..words]);
    Ok(Filled {
        rows: b.rows as u16,
        twins: twins as u16,
        effects: effects as u16,
        goal,
    })
}

// Finishes, and copies the twins that were built; with no room for all rules these stay out. Costs what `finish_bare` does, and a step for each
// twin.
pub fn finish(
    counts: Counts,
    b: &Builder<'_>,
    goal: u16,
    initial: &[u8],
    operators: &[u16],
    records: &[u16],
    values: &mut [u8],
    originals: &mut [u16],
    table: &mut [u16],
    out: &mut [u16],
    written: &mut [u16],
) -> Result<Filled, NoRoom>
    requires { Stands counts (done_step (size_in b.now) goal) initial.now operators.now b.now.originals.now b.now.table.now records.now (outputs values.old originals.old table.old out.old written.old) }
    ensures { Finished counts (done_step (size_in b.now) goal) initial.now operators.now b.now.originals.now b.now.table.now records.now (outputs values.old originals.old table.old out.old written.old) (outputs values.new originals.new table.new out.new written.new) result }
{
    let filled = finish_bare(
        counts, b, goal, initial, operators, records, values, table, out, written,
    )?;
    let twins = b.twins;
    copy_all(&mut originals[..twins], &b.originals[..twins]);
    Ok(filled)
}
