// Filling the columns of a batch. What earlier operators came to was built for every atom, so nothing is added: only what the columns keep.
ghost use Rattle.effect_batches.specs.Inner.Filling.{FillsRowBy, FillsAtomBy, FillsBy, FilledBy};

use conditions::{ConditionBuilder, Target};

// The condition of row e for one atom, if its set has the atom. A walk over the rows below e, not below one whose condition is kept. What it answers
// is known: no room is needed.
fn fill_row(b: &mut ConditionBuilder<'_, '_, '_, '_>, e: usize, t: Target)
    requires { FillsRowBy b.old t e }
    ensures { FilledBy b.old b.new }
{
    if b.lacked(t, e) {
        return;
    }
    let _ = b.condition(e, t);
}

// The conditions of the rows of the list for one atom. Since the memo keeps what is walked for it, each row below is walked once.
fn fill_atom(b: &mut ConditionBuilder<'_, '_, '_, '_>, list: &[u16], t: Target)
    requires { FillsAtomBy b.old list.now t }
    ensures { FilledBy b.old b.new }
{
    for e in list {
        fill_row(b, *e as usize, t);
    }
}

// The columns of the rows of the list, for each atom: set v and clear v of each variable, upwards. For each a walk over the rows below these.
pub fn fill_columns(b: &mut ConditionBuilder<'_, '_, '_, '_>, list: &[u16])
    requires { FillsBy b.old list.now }
    ensures { FilledBy b.old b.new }
{
    let atoms = 2 * b.images.builder.frame.variables;
    for a in 0..atoms {
        let t = Target {
            clear: a % 2 == 1,
            variable: (a / 2) as u16,
            negated: false,
        };
        fill_atom(b, list, t);
    }
}
