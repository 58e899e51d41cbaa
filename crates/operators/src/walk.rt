// The changes of all variables, upwards.
ghost use Rattle.std.specs.Prelude.{◌≤◌, length};
ghost use Rattle.formula_builder.specs.Inner.Held.{full_by};
ghost use Rattle.atom_sets.specs.Inner.Sets.{InSet, sets_end};
ghost use Rattle.conditions.specs.Inner.Conditions.{SameConditions};
ghost use Rattle.variable_changes.specs.Inner.Stands.{StandsBy, LeavesBy};
ghost use Rattle.change_records.specs.Inner.Recorded.{Opens};
ghost use Rattle.operators.specs.Inner.Operator.{Passes, LooksOn, NextTouched, WalkedBy, changes_of_all, tally_by};

use atom_sets::set_from;
use change_records::keep_change;
use conditions::ConditionBuilder;
use formula_builder::{Frame, NoRoom};
use rule_writer::Changes;
use variable_changes::change_of;

// How many variables from v on are passed over at once: none, if effect e names an atom of v; those left of v's word, if it names none of theirs
// either; else v alone. Constant cost: one word is read.
fn passed_at(notes: &[u16], frame: Frame, e: usize, v: usize) -> usize
    requires { InSet frame v e × (sets_end frame ≤ length notes.now) }
    ensures { Passes frame notes.now e v result }
{
    let rest = set_from(notes, frame, v, e);
    if rest == 0 {
        8 - v % 8
    } else if rest % 4 == 0 {
        1
    } else {
        0
    }
}

// The first variable from one on of which effect e names an atom; V if there is none. At most a step for each that is passed over, one for eight
// in a stretch that e leaves alone: so it is no `for`.
fn next_touched(b: &ConditionBuilder<'_, '_, '_, '_>, e: usize, from: usize) -> usize
    requires { LooksOn b.now.images.builder.frame b.now.notes.now e from }
    ensures { NextTouched b.now.images.builder.frame b.now.notes.now e from result }
{
    let frame = b.images.builder.frame;
    let mut v = from;
    while v < frame.variables {
        let k = passed_at(b.notes, frame, e, v);
        if k == 0 {
            return v;
        }
        v += k;
    }
    frame.variables
}

// The changes of all variables are built, and recorded behind those that are; variables that the effect does not touch are passed over. Answers
// how many are recorded then.
pub fn build_changes(
    b: &mut ConditionBuilder<'_, '_, '_, '_>,
    e: usize,
    from: usize,
    records: &mut [u16],
) -> Result<usize, NoRoom>
    requires { StandsBy b.old e × Opens from records.old }
    ensures walked { WalkedBy (changes_of_all b.old e) b.old b.new from records.old records.new (tally_by b.new result) }
    ensures leaves { LeavesBy b.old b.new (full_by result) }
    ensures same { SameConditions b.old b.new }
{
    let n = b.images.builder.frame.variables;
    let mut k = from;
    let mut v = next_touched(b, e, 0);
    while v < n {
        let variable = v as u16;
        let c = change_of(b, e, variable)?;
        let changes = Changes {
            variable,
            adds: c.adds,
            deletes: c.deletes,
        };
        k = keep_change(records, k, changes);
        v = next_touched(b, e, v + 1);
    }
    Ok(k)
}
