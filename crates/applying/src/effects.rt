// Carrying out an effect: the rows that act are marked, then the state is changed in place.
ghost use Rattle.std.specs.Prelude.{ℕ, ◌+◌, ◌≤◌, ◌<◌, ◌≡◌, length};
ghost use Rattle.task.specs.Kinds.{effect_number};
ghost use Rattle.applying.specs.Inner.Marks.{changed, Changeable, Markable, Marked, HandedOn, Begun};
ghost use Rattle.applying.specs.Inner.Carrying.{ConditionsReady, Carried};

use evaluating::evaluate;
use task::Table;
use task::kinds::EffectKind;
use task::table_rows::row_at;

// The value goes to each variable that a marked row of this kind names, among the rows below `rows`. Linear in `rows`.
fn change(
    effects: &[u16],
    rows: usize,
    kind: EffectKind,
    value: u8,
    state: &mut [u8],
    scratch: &[u8],
    at: usize,
)
    requires { Changeable effects.now (effect_number kind) scratch.now at rows (length state.old) }
    ensures { state.new ≡ changed effects.now (effect_number kind) value scratch.now at rows state.old }
{
    for i in 0..rows {
        if scratch[at + i] != 0 {
            let row = row_at(Table::Effects, effects, i);
            if row.first == kind as u16 {
                state[row.second as usize] = value;
            }
        }
    }
}

// Row i hands on: "both" marks its two effects, "under" its effect if the formula holds. Constant time.
fn hand_on(effects: &[u16], i: usize, scratch: &mut [u8], at: usize)
    requires { (variables : ℕ) × Markable effects.now variables at i scratch.old }
    ensures { HandedOn effects.now at i scratch.old scratch.new }
{
    let row = row_at(Table::Effects, effects, i);
    let kind = EffectKind::try_from(row.first).unwrap();
    let a = row.second as usize;
    let b = row.third as usize;
    match kind {
        EffectKind::Both => {
            scratch[at + a] = 1;
            scratch[at + b] = 1;
        }
        EffectKind::Under => {
            if scratch[a] != 0 {
                scratch[at + b] = 1;
            }
        }
        EffectKind::Empty | EffectKind::Set | EffectKind::Clear => {}
    }
}

// The root alone is marked, among the rows up to it. Linear in `root`.
fn begin_marks(scratch: &mut [u8], at: usize, root: usize)
    requires { at + root < length scratch.old }
    ensures { Begun at root scratch.old scratch.new }
{
    let end = at + root;
    scratch[at..end].fill(0);
    scratch[end] = 1;
}

// The rows that act when row `root` is carried out are marked, from the root down. Linear in `root`.
fn mark(effects: &[u16], root: usize, scratch: &mut [u8], at: usize)
    requires { (variables : ℕ) × Markable effects.now variables at root scratch.old }
    ensures { Marked effects.now at root scratch.old scratch.new }
{
    begin_marks(scratch, at, root);
    for i in (0..root + 1).rev() {
        if scratch[at + i] != 0 {
            hand_on(effects, i, scratch, at);
        }
    }
}

// The effect of row `root` is carried out; the formulas below `from` are evaluated already, those from..at are not. All conditions
// count in the state before: they are decided before the clears, and the sets go by the same marks. The sets come last, so a set wins.
// Linear in the formulas left and in `root`.
pub fn carry_out(
    formulas: &[u16],
    from: usize,
    at: usize,
    effects: &[u16],
    root: usize,
    state: &mut [u8],
    scratch: &mut [u8],
)
    requires { ConditionsReady formulas.now effects.now from at root state.old scratch.old }
    ensures { Carried formulas.now effects.now at root state.old state.new scratch.old scratch.new }
{
    evaluate(formulas, from, at, state, scratch);
    mark(effects, root, scratch, at);
    let rows = root + 1;
    change(effects, rows, EffectKind::Clear, 0, state, scratch, at);
    change(effects, rows, EffectKind::Set, 1, state, scratch, at);
}
