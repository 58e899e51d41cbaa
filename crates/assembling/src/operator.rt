// One operator: its rules, and its row.
ghost use Rattle.std.specs.Prelude.{◌≤◌, IfOk};
ghost use Rattle.task.specs.Table.{operator_at};
ghost use Rattle.normal_form.specs.Assembly.{rules};
ghost use Rattle.formula_builder.specs.Inner.Held.{row_of};
ghost use Rattle.rule_writer.specs.Inner.Writes.{Ready, Writes};
ghost use Rattle.assembling.specs.Inner.Assembles.{changes_between, built_of, ForTwins, WritesRecords, WritesOperator, WritesRow};

use change_records::kept_change;
use formula_builder::Words;
use rule_writer::{Chain, Frame, NoRoom, write_changes};
use task::operator_rows::{operator_at, store_operator};

// What the rules of every operator are written from: what the walks recorded, the places of the twins, and the counts.
#[derive(Clone, Copy)]
pub struct Recorded<'a> {
    pub records: &'a [u16],
    pub places: &'a [u16],
    pub frame: Frame,
}

// The rules of the changes recorded from k up to an end, behind what stands. One step for each.
fn write_records(
    recorded: &Recorded<'_>,
    k: usize,
    end: usize,
    chain: Chain,
    out: &mut [u16],
) -> Result<Chain, NoRoom>
    requires { WritesRecords recorded.now.frame recorded.now.records.now recorded.now.places.now k end chain out.old }
    ensures ready { IfOk result (λ chain. Ready recorded.now.frame.room chain out.new) }
    ensures written { ForTwins recorded.now.frame recorded.now.places.now (λ twins. Writes (rules recorded.now.frame.variables twins (changes_between recorded.now.records.now k end)) recorded.now.frame.room chain out.old out.new result) }
{
    let mut r = chain;
    for i in k..end {
        let c = kept_change(recorded.records, i);
        r = write_changes(out, recorded.places, recorded.frame, r, c)?;
    }
    Ok(r)
}

// Operator o of the source, its record being w and its changes recorded from k on, behind so many effect rows: how many stand then.
pub fn assemble_operator(
    recorded: &Recorded<'_>,
    source: &[u16],
    w: Words,
    o: usize,
    k: usize,
    rows: usize,
    out: &mut [u16],
    written: &mut [u16],
) -> Result<usize, NoRoom>
    requires { WritesOperator recorded.now.frame source.now recorded.now.records.now recorded.now.places.now (row_of w) o k rows out.old written.old }
    ensures within { IfOk result (λ stand. stand ≤ recorded.now.frame.room) }
    ensures written { ForTwins recorded.now.frame recorded.now.places.now (λ twins. WritesRow (built_of recorded.now.records.now (row_of w) k (operator_at source.now o)) recorded.now.frame.variables twins recorded.now.frame.room rows o out.old out.new written.old written.new result) }
{
    let begun = Chain { rows, stands: 0 };
    let r = write_records(recorded, k, w.a as usize, begun, out)?;
    let row = operator_at(source, o).with_parts(w.kind, r.stands);
    store_operator(written, o, row);
    Ok(r.rows)
}
