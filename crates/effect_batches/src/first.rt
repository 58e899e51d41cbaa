// The first operator that comes to each effect row, plus 1, in a word for each row; 0, if none does.
ghost use Rattle.std.specs.Prelude.{List, ℕ, ◌<◌, length};
ghost use Rattle.effect_batches.specs.Inner.Firsts.{First, Meets, MeetsRoots, HandsOn, HandedOn, FindsFirst};

use formula_builder::{Frame, read_row};
use task::kinds::EffectKind;
use task::operator_rows::operator_at;

// Whether word w names an operator before the one that the word old names.
fn sooner(w: u16, old: u16) -> bool {
    w != 0 && (old == 0 || w < old)
}

// A referrer with the word w names row e.
fn meet(first: &mut [u16], e: usize, w: u16)
    requires { e < length first.old }
    ensures { Meets first.old first.new e w }
{
    if sooner(w, first[e]) {
        first[e] = w;
    }
}

// Each operator names its effect. As many steps as there are operators.
fn meet_roots(operators: &[u16], count: usize, first: &mut [u16])
    requires { MeetsRoots operators.now count first.old }
    ensures { (effects : List ℕ) → First effects operators.now count first.new }
{
    for k in 0..count {
        let operator = operator_at(operators, k);
        meet(first, operator.effect as usize, (k + 1) as u16);
    }
}

// Row i hands its word on to the rows that it names.
fn hand_on(effects: &[u16], i: usize, first: &mut [u16])
    requires { HandsOn effects.now first.old i }
    ensures { HandedOn effects.now first.old first.new }
{
    let w = first[i];
    let r = read_row(effects, i);
    match EffectKind::try_from(r.kind) {
        Ok(EffectKind::Both) => {
            meet(first, r.b as usize, w);
            meet(first, r.a as usize, w);
        }
        Ok(EffectKind::Under) => meet(first, r.b as usize, w),
        _ => {}
    }
}

// The words of all rows, which are 0 before: one pass over the operators, then one over the effects, downwards, since the rows that a row
// names are lower.
pub fn find_first(effects: &[u16], operators: &[u16], count: usize, frame: Frame, first: &mut [u16])
    requires { FindsFirst frame effects.now operators.now count first.old }
    ensures { First effects.now operators.now count first.new }
{
    meet_roots(operators, count, first);
    for i in (0..frame.effects).rev() {
        hand_on(effects, i, first);
    }
}
