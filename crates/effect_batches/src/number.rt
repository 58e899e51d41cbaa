// The columns of one batch: a number of its own for each entry, in word e of the notes for row e.
ghost use Rattle.std.specs.Prelude.{ℕ, ◌+◌, ◌*◌, ◌≤◌, ◌<◌, length};
ghost use Rattle.effect_batches.specs.Inner.Firsts.{Roots};
ghost use Rattle.effect_batches.specs.Inner.Numbers.{Room, Numbered, NamesRow, NamesBelow, NamesRoots, Renumbered};

use formula_builder::{Frame, read_row};
use task::kinds::EffectKind;
use task::operator_rows::operator_at;

// Whether row e is an atom, or empty, and so names no other row.
fn leaf(effects: &[u16], e: usize) -> bool
    requires { 3 * e + 3 ≤ length effects.now }
{
    let kind = read_row(effects, e).kind;
    !matches!(
        EffectKind::try_from(kind),
        Ok(EffectKind::Both | EffectKind::Under)
    )
}

// Row e, which the operator of word w or a row first come to by it names: it gets the next column if an earlier operator came to it, unless
// it has one, or is a leaf. Answers the last column given.
fn name(effects: &[u16], first: &[u16], e: usize, w: u16, last: u16, notes: &mut [u16]) -> u16
    requires { NamesRow effects.now first.now notes.old e last }
    ensures { (n : ℕ) → e < n → Numbered n 1 last notes.old notes.new result }
{
    if w <= first[e] || notes[e] != 0 || leaf(effects, e) {
        return last;
    }
    notes[e] = last + 1;
    last + 1
}

// Of so many rows those that operators name have a column, so many operators from one on, and no others. As many steps as there are rows and
// operators. Answers the last column given.
fn name_roots(
    effects: &[u16],
    operators: &[u16],
    from: usize,
    size: usize,
    first: &[u16],
    rows: usize,
    notes: &mut [u16],
) -> u16
    requires { NamesRoots rows effects.now operators.now first.now notes.old (from + size) }
    ensures { Renumbered rows notes.old notes.new result × (result ≤ size) }
{
    notes[..rows].fill(0);
    let mut last = 0;
    for o in from..from + size {
        let operator = operator_at(operators, o);
        last = name(
            effects,
            first,
            operator.effect as usize,
            (o + 1) as u16,
            last,
            notes,
        );
    }
    last
}

// The rows that row i names, if one of so many operators from one on came to i first.
fn name_below(
    effects: &[u16],
    i: usize,
    from: usize,
    size: usize,
    first: &[u16],
    last: u16,
    notes: &mut [u16],
) -> u16
    requires { NamesBelow effects.now first.now notes.old i last }
    ensures { (n : ℕ) → i < n → Numbered n 2 last notes.old notes.new result }
{
    let w = first[i];
    if w as usize <= from || size < w as usize - from {
        return last;
    }
    let r = read_row(effects, i);
    match EffectKind::try_from(r.kind) {
        Ok(EffectKind::Both) => {
            let right = name(effects, first, r.b as usize, w, last, notes);
            name(effects, first, r.a as usize, w, right, notes)
        }
        Ok(EffectKind::Under) => name(effects, first, r.b as usize, w, last, notes),
        _ => last,
    }
}

// The rows that rows name to which one of so many operators from one on came first. As many steps as there are effects, two rows each.
fn name_rows(
    effects: &[u16],
    from: usize,
    size: usize,
    first: &[u16],
    given: u16,
    frame: Frame,
    notes: &mut [u16],
) -> u16
    requires { Room frame effects.now first.now notes.old × (given ≤ 256) }
    ensures { Numbered frame.effects (2 * frame.effects) given notes.old notes.new result }
{
    let mut last = given;
    for i in 0..frame.effects {
        last = name_below(effects, i, from, size, first, last, notes);
    }
    last
}

// The columns of so many operators from one on: each entry has one, no other row. Three passes, two over the effects, one over these
// operators. Answers how many there are.
pub fn number_batch(
    effects: &[u16],
    operators: &[u16],
    from: usize,
    size: usize,
    first: &[u16],
    frame: Frame,
    notes: &mut [u16],
) -> u16
    requires { Room frame effects.now first.now notes.old × Roots frame.effects operators.now (from + size) }
    ensures { Renumbered frame.effects notes.old notes.new result }
{
    let given = name_roots(effects, operators, from, size, first, frame.effects, notes);
    name_rows(effects, from, size, first, given, frame, notes)
}
