// Filling the lent tables, with the help of tables in the call's own frame.
ghost use Rattle.std.specs.Prelude.{◌≤◌, length};
ghost use Rattle.task.specs.Lending.{lent_tables};
ghost use Rattle.formula_builder.specs.Inner.Held.{done_step, size_in};
ghost use Rattle.compile_parts.specs.Inner.FinishesBare.{bare_outputs, BareStands, BareFinished};
ghost use Rattle.compiler.specs.Tables.{tables};
ghost use Rattle.compiler.specs.Inner.Fills.{counted, Enough, Roomy, TwinsCopied, Tries, Fills};

use crate::clear::clear_all;
use crate::layout::{LARGE_BUILT, LARGE_NOTES, MOST_VARIABLES, RECORDS, SMALL_BUILT, SMALL_NOTES};
use crate::sizes::{fewer_rows, is_small};
use compile_parts::{Counts, Filled, NoRoom, build, finish_bare};
use conditions::ConditionBuilder;
use formula_builder::Builder;
use images::ImageBuilder;
use task::copying::copy_all;
use task::tables::Tables;

// Finishes, and copies the twins that were built; with no room for all rules these stay out. Costs what `finish_bare` does, and a step for each twin.
fn finish_all(
    counts: Counts,
    b: &Builder<'_>,
    goal: u16,
    source: &Tables<'_>,
    records: &[u16],
    values: &mut [u8],
    originals: &mut [u16],
    table: &mut [u16],
    out: &mut [u16],
    written: &mut [u16],
) -> Result<Filled, NoRoom>
    requires { BareStands counts (done_step (size_in b.now) goal) (lent_tables source.now).initial (lent_tables source.now).operators b.now.originals.now b.now.table.now records.now (bare_outputs values.old table.old out.old written.old) × (b.now.twins ≤ length originals.old) }
    ensures finished { BareFinished counts (done_step (size_in b.now) goal) (lent_tables source.now).initial (lent_tables source.now).operators b.now.originals.now b.now.table.now records.now (bare_outputs values.old table.old out.old written.old) (bare_outputs values.new table.new out.new written.new) result }
    ensures twins { TwinsCopied b.now.twins b.now.originals.now originals.old originals.new result }
{
    let filled = finish_bare(
        counts,
        b,
        goal,
        source.initial,
        source.operators,
        records,
        values,
        table,
        out,
        written,
    )?;
    let twins = b.twins;
    copy_all(&mut originals[..twins], &b.originals[..twins]);
    Ok(filled)
}

// A source, with a frame of so many words for rows and for notes. After no room, which says nothing of the task if fewer rows are counted than
// the lent tables hold, the lent tables are all 0 again. Costs clearing the frame, and what `build` and `finish_all` do. It stays out of line, since
// entering a function touches each page of its frame: 1.4 us for the large one. Twins are built in the frame and copied too, as the rows are:
// of a slice that a struct within a struct holds, the proof knows nothing once the struct is gone.
#[inline(never)]
fn fill_in<const BUILT: usize, const NOTES: usize>(
    counts: Counts,
    source: &Tables<'_>,
    values: &mut [u8],
    originals: &mut [u16],
    table: &mut [u16],
    out: &mut [u16],
    written: &mut [u16],
    scratch: &mut [u16],
) -> Result<Filled, NoRoom>
    requires { Enough BUILT NOTES (counted counts (lent_tables source.now)) (tables values.old originals.old table.old out.old written.old scratch.old) }
    ensures { Tries (counted counts (lent_tables source.now)) (tables values.old originals.old table.old out.old written.old scratch.old) (tables values.new originals.new table.new out.new written.new scratch.new) result }
{
    let mut built = [0u16; BUILT];
    let mut twins = [0u16; MOST_VARIABLES];
    let mut records = [0u16; RECORDS];
    let mut notes = [0u16; NOTES];
    let builder = Builder {
        frame: counts.frame,
        rows: 0,
        twins: 0,
        table: &mut built,
        originals: &mut twins,
    };
    let images = ImageBuilder {
        formulas: source.formulas,
        scratch,
        builder,
    };
    let mut conditions = ConditionBuilder {
        effects: source.effects,
        notes: &mut notes,
        images,
    };
    let filled = match build(&mut conditions, counts, source.operators, &mut records) {
        Ok(goal) => finish_all(
            counts,
            &conditions.images.builder,
            goal,
            source,
            &records,
            values,
            originals,
            table,
            out,
            written,
        ),
        Err(NoRoom) => Err(NoRoom),
    };
    if filled.is_err() {
        clear_all(values, originals, table, out, written, scratch);
    }
    filled
}

// The lent tables, which are all 0, get the finished task; or it does not fit, and they are all 0 again. For a small source the small frame is
// tried first: costs two fillings at most.
pub fn fill(
    counts: Counts,
    source: &Tables<'_>,
    values: &mut [u8],
    originals: &mut [u16],
    table: &mut [u16],
    out: &mut [u16],
    written: &mut [u16],
    scratch: &mut [u16],
) -> Result<Filled, NoRoom>
    requires { Roomy (counted counts (lent_tables source.now)) (tables values.old originals.old table.old out.old written.old scratch.old) }
    ensures { Fills (counted counts (lent_tables source.now)) (tables values.old originals.old table.old out.old written.old scratch.old) (tables values.new originals.new table.new out.new written.new scratch.new) result }
{
    if is_small(counts) {
        let small = fill_in::<SMALL_BUILT, SMALL_NOTES>(
            fewer_rows(counts),
            source,
            values,
            originals,
            table,
            out,
            written,
            scratch,
        );
        if small.is_ok() {
            return small;
        }
    }
    fill_in::<LARGE_BUILT, LARGE_NOTES>(
        counts, source, values, originals, table, out, written, scratch,
    )
}
