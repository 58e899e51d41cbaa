// The condition of an effect: the builder recurses to lower effect rows, with a memo.
ghost use Rattle.std.specs.Prelude.{◌≡◌};
ghost use Rattle.task.specs.Table.{row_at};
ghost use Rattle.conditions.specs.Inner.Conditions.{condition_by, AsksCondition, Conditioned};

use crate::atom::atom;
use crate::{ConditionBuilder, Target};
use formula_builder::{NoRoom, falsity, read_row};
use task::kinds::EffectKind;

impl ConditionBuilder<'_, '_, '_, '_> {
    // The condition of effect e: what the memo has; that of an atom; else it is built, and kept. Rows are visited only where the atom stands below
    // them (`condition_if`), and not below one whose condition is kept.
    #[cycle(conditions)]
    pub fn condition(&mut self, e: usize, t: Target) -> Result<u16, NoRoom>
        requires { AsksCondition self.old t e }
        ensures { Conditioned (condition_by self.old t e) self.old self.new result }
    {
        if let Some(row) = self.recall(t, e) {
            return Ok(row);
        }
        let w = read_row(self.effects, e);
        let row = match w.effect_kind() {
            EffectKind::Both => self.both(e, t)?,
            EffectKind::Under => self.under(e, t)?,
            _ => return Ok(atom(w, t)),
        };
        self.keep(t, e, row);
        Ok(row)
    }

    // "Both": the left effect, the right one, the join; one that is false leaves the other.
    #[cycle(conditions)]
    fn both(&mut self, e: usize, t: Target) -> Result<u16, NoRoom>
        requires { AsksCondition self.old t e × ((row_at self.old.effects.now e).kind ≡ 3) }
        ensures { Conditioned (condition_by self.old t e) self.old self.new result }
    {
        let w = read_row(self.effects, e);
        let l = self.condition_if(w.a as usize, t)?;
        let r = self.condition_if(w.b as usize, t)?;
        let none = falsity(t.negated);
        if l == none {
            return Ok(r);
        }
        if r == none {
            return Ok(l);
        }
        self.joined(e, t, !t.negated, l, r)
    }

    // The condition of effect e: false, if the atom does not stand in e; else it is built.
    #[cycle(conditions)]
    pub fn condition_if(&mut self, e: usize, t: Target) -> Result<u16, NoRoom>
        requires { AsksCondition self.old t e }
        ensures { Conditioned (condition_by self.old t e) self.old self.new result }
    {
        if self.lacked(t, e) {
            return Ok(falsity(t.negated));
        }
        self.condition(e, t)
    }

    // "Under": the inner effect is built first; if it is false, so is the answer. Else the formula's image, and the join.
    #[cycle(conditions)]
    fn under(&mut self, e: usize, t: Target) -> Result<u16, NoRoom>
        requires { AsksCondition self.old t e × ((row_at self.old.effects.now e).kind ≡ 4) }
        ensures { Conditioned (condition_by self.old t e) self.old self.new result }
    {
        let w = read_row(self.effects, e);
        let s = self.condition(w.b as usize, t)?;
        if s == falsity(t.negated) {
            return Ok(s);
        }
        let f = self.images.sided(w.a as usize, t.negated)?;
        self.joined(e, t, t.negated, f, s)
    }
}
