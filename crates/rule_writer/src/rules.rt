// The rules of a compiled operator, as effect rows behind those that stand.
ghost use Rattle.std.specs.Prelude.{◌≡◌, ◌+◌, ◌*◌, ◌≤◌, ◌<◌, length, get_or};
ghost use Rattle.rule_writer.specs.Inner.Writes.{alone, rule_in, twin_rule_in, opposed_in, all_in, two_rows, Ready, FrameReady, First, Next, Writes};

use crate::rows::store;
use crate::{Chain, Changes, Frame, NoRoom, Rule};
use task::kinds::EffectKind;

// The two rows of a rule: its atom at row n, then the atom under its condition.
fn conjunct(table: &mut [u16], n: usize, r: Rule)
    requires { (n ≤ 4095) × (3 * n + 6 ≤ length table.old) }
    ensures { table.new ≡ two_rows table.old n r }
{
    let kind = if r.sets {
        EffectKind::Set
    } else {
        EffectKind::Clear
    };
    store(table, n, kind as u16, r.variable, 0);
    let under = EffectKind::Under as u16;
    store(table, n + 1, under, r.condition, n as u16);
}

// An operator's first rule.
fn first(table: &mut [u16], room: usize, at: Chain, r: Rule) -> Result<Chain, NoRoom>
    requires { First room at table.old }
    ensures { Writes (alone r) room at table.old table.new result }
{
    let n = at.rows;
    if room < n + 2 {
        return Err(NoRoom);
    }
    conjunct(table, n, r);
    Ok(Chain {
        rows: n + 2,
        stands: (n + 1) as u16,
    })
}

// A further rule: joined by "both" to what stands.
fn next(table: &mut [u16], room: usize, at: Chain, r: Rule) -> Result<Chain, NoRoom>
    requires { Next room at table.old }
    ensures { Writes (alone r) room at table.old table.new result }
{
    let n = at.rows;
    if room < n + 3 {
        return Err(NoRoom);
    }
    conjunct(table, n, r);
    let both = EffectKind::Both as u16;
    store(table, n + 2, both, at.stands, (n + 1) as u16);
    Ok(Chain {
        rows: n + 3,
        stands: (n + 2) as u16,
    })
}

// One rule; none for a condition that is row 0. Constant time.
pub fn write_rule(table: &mut [u16], room: usize, at: Chain, r: Rule) -> Result<Chain, NoRoom>
    requires { Ready room at table.old }
    ensures { Writes (rule_in r) room at table.old table.new result }
{
    if r.condition == 0 {
        Ok(at)
    } else if at.stands == 0 {
        first(table, room, at, r)
    } else {
        next(table, room, at, r)
    }
}

// The opposite rule for the twin at place k; none if k is past the twins.
fn twin_rule(table: &mut [u16], frame: Frame, at: Chain, k: usize, r: Rule) -> Result<Chain, NoRoom>
    requires { FrameReady frame at table.old }
    ensures { Writes (twin_rule_in frame k r) frame.room at table.old table.new result }
{
    if k < frame.twins {
        let t = frame.variables + k;
        let opposite = Rule {
            sets: !r.sets,
            variable: t as u16,
            condition: r.condition,
        };
        write_rule(table, frame.room, at, opposite)
    } else {
        Ok(at)
    }
}

// A rule, and the opposite one for the twin at place k.
fn opposed(table: &mut [u16], frame: Frame, at: Chain, k: usize, r: Rule) -> Result<Chain, NoRoom>
    requires { FrameReady frame at table.old }
    ensures { Writes (opposed_in frame k r) frame.room at table.old table.new result }
{
    let a = write_rule(table, frame.room, at, r)?;
    twin_rule(table, frame, a, k, r)
}

// All rules of one variable, the place of its twin being known: set v, clear its twin; clear v, set its twin. Constant time.
pub fn write_changes(
    table: &mut [u16],
    places: &[u16],
    frame: Frame,
    at: Chain,
    c: Changes,
) -> Result<Chain, NoRoom>
    requires { FrameReady frame at table.old × (c.variable < length places.now) }
    ensures { Writes (all_in frame (get_or places.now c.variable 0) c) frame.room at table.old table.new result }
{
    let k = places[c.variable as usize] as usize;
    let sets = Rule {
        sets: true,
        variable: c.variable,
        condition: c.adds,
    };
    let clears = Rule {
        sets: false,
        variable: c.variable,
        condition: c.deletes,
    };
    let a = opposed(table, frame, at, k, sets)?;
    opposed(table, frame, a, k, clears)
}
