// Conditions that are kept for other operators, in the columns of the notes: a second place to look, behind the memo. Constant cost.
ghost use Rattle.std.specs.Prelude.{◌≡◌, ◌≤◌, ◌<◌, IfSome};
ghost use Rattle.conditions.specs.Inner.Conditions.{part, width, Looks, KeptAt, RecallsNoted, KeepsNoted};

use crate::Target;
use atom_sets::sets_end;
use formula_builder::Frame;

// Which of its variable's words in a column is a target's: set, clear, or the dual of set; the dual of clear has none.
fn part_of(t: Target) -> usize
    ensures { (result ≡ part t) × (result ≤ 3) }
{
    t.clear as usize + 2 * (t.negated as usize)
}

// How many words each of so many variables has in a column: where there are many, more columns are worth more than the duals.
#[tactic(auto, using(crate::proofs::Notes::width_three, crate::proofs::Notes::width_two))]
pub fn width_of(variables: usize) -> usize
    ensures { (result ≡ width variables) × (result ≤ 3) × (2 ≤ result) }
{
    if variables <= 256 { 3 } else { 2 }
}

// The word of the notes that keeps the condition of target t and effect e, if one does. They keep as far as they reach.
fn place(notes: &[u16], frame: &Frame, t: Target, e: usize) -> Option<usize>
    requires { Looks frame.now notes.now e × (t.variable < frame.now.variables) }
    ensures { IfSome result (KeptAt frame.now notes.now t e) }
{
    let c = notes[e];
    if c == 0 {
        return None;
    }
    let part = part_of(t);
    let n = width_of(frame.variables);
    if n <= part {
        return None;
    }
    let a = n * (t.variable as usize) + part;
    let k = sets_end(*frame) + ((c as usize) * (n * frame.variables) + a);
    if notes.len() <= k {
        return None;
    }
    Some(k)
}

// The row of the condition of target t and effect e, if the notes keep it.
pub fn recall_noted(notes: &[u16], frame: &Frame, t: Target, e: usize) -> Option<u16>
    requires { Looks frame.now notes.now e × (t.variable < frame.now.variables) }
    ensures { IfSome result (RecallsNoted frame.now notes.now t e) }
{
    let k = place(notes, frame, t, e)?;
    notes[k].checked_sub(1)
}

// Keeps the row of the condition of target t and effect e, if the notes have a word for it.
pub fn keep_noted(notes: &mut [u16], frame: &Frame, t: Target, e: usize, row: u16)
    requires { Looks frame.now notes.old e × (t.variable < frame.now.variables) × (row < 4096) }
    ensures { KeepsNoted frame.now notes.old notes.new t e row }
{
    if let Some(k) = place(notes, frame, t, e) {
        notes[k] = row + 1;
    }
}
