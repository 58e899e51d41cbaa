// The atoms of effect rows. Constant cost.
ghost use Rattle.std.specs.Prelude.{◌≡◌, ◌≤◌, length};
ghost use Rattle.task.specs.Table.{effect_kind};
ghost use Rattle.formula_builder.specs.Inner.Held.{row_of};
ghost use Rattle.atom_sets.specs.Inner.Sets.{InSet, sets_end, lacks};
ghost use Rattle.conditions.specs.Inner.Conditions.{acts, atom_of, atom_row};

use crate::{ConditionBuilder, Target};
use atom_sets::lacks;
use formula_builder::{Words, falsity, truth};
use task::kinds::EffectKind;

// Whether an effect's row is the target's atom itself.
fn touches(w: Words, t: Target) -> bool
    ensures { result ≡ acts (atom_of t) (effect_kind w.kind) w.a }
{
    if w.a != t.variable {
        return false;
    }
    if t.clear {
        w.kind == EffectKind::Clear as u16
    } else {
        w.kind == EffectKind::Set as u16
    }
}

// True for the atom itself, else false; negated, the other way round.
#[tactic(auto, unfolding(crate::specs::Inner::Conditions::atom_row))]
pub fn atom(w: Words, t: Target) -> u16
    ensures { result ≡ atom_row t (row_of w) }
{
    if touches(w, t) {
        truth(t.negated)
    } else {
        falsity(t.negated)
    }
}

impl ConditionBuilder<'_, '_, '_, '_> {
    // Whether the target's atom does not stand in effect e at all.
    pub fn lacked(&self, t: Target, e: usize) -> bool
        requires { InSet self.now.images.builder.frame t.variable e × (sets_end self.now.images.builder.frame ≤ length self.now.notes.now) }
        ensures { result ≡ lacks self.now.images.builder.frame self.now.notes.now t.clear t.variable e }
    {
        lacks(
            self.notes,
            self.images.builder.frame,
            t.clear,
            t.variable as usize,
            e,
        )
    }
}
