// The last join that was made for each effect row: the notes keep it behind the columns, in three words, the left row, the right row, and the
// row of the join plus 1, or 0. A row joins for plain targets by one kind alone, so only those are kept. Constant cost, but for a join.
ghost use Rattle.std.specs.Prelude.{◌≡◌, ◌<◌, IfSome};
ghost use Rattle.formula_builder.specs.Inner.Held.{size_in, store_in, step_by};
ghost use Rattle.conditions.specs.Inner.Conditions.{Looks, SameConditions};
ghost use Rattle.conditions.specs.Inner.Joins.{Rejoins, KeepsJoin, AsksJoin, Joined};

use crate::{ConditionBuilder, Target};
use formula_builder::{Frame, NoRoom};

// Keeps x, the join of rows l and r for row e, if the target is plain. A join that folded, to l or to r, is not kept: it is made as quickly as it
// is found, and would take the place of one that was searched for.
fn keep_join(notes: &mut [u16], frame: &Frame, t: Target, e: usize, l: u16, r: u16, x: u16)
    requires { Looks frame.now notes.old e × (x < 4096) }
    ensures { KeepsJoin frame.now notes.old notes.new t e l r x }
{
    if t.negated || x == l || x == r {
        return;
    }
    let k = frame.effects + 3 * e;
    notes[k] = l;
    notes[k + 1] = r;
    notes[k + 2] = x + 1;
}

impl ConditionBuilder<'_, '_, '_, '_> {
    // The join of rows l and r for row e, if it is the last one.
    fn last_join(&self, t: Target, e: usize, l: u16, r: u16) -> Option<u16>
        requires { Looks self.now.images.builder.frame self.now.notes.now e }
        ensures { IfSome result (Rejoins self.now.images.builder.frame self.now.notes.now t e l r) }
    {
        let k = self.images.builder.frame.effects + 3 * e;
        if t.negated || self.notes[k] != l || self.notes[k + 1] != r {
            return None;
        }
        self.notes[k + 2].checked_sub(1)
    }

    // The join of rows l and r for row e, "and" or "or": what is kept, or made and kept.
    pub fn joined(&mut self, e: usize, t: Target, or: bool, l: u16, r: u16) -> Result<u16, NoRoom>
        requires { AsksJoin self.old.images.builder.frame self.old.notes.now e (size_in self.old.images.builder) (store_in self.old.images.builder) l r }
        ensures joined { Joined self.old.images.builder.frame self.old.notes.now self.new.notes.now t e or (size_in self.old.images.builder) l r (store_in self.old.images.builder) (store_in self.new.images.builder) (step_by self.new.images.builder result) }
        ensures same { SameConditions self.old self.new }
        ensures scratch { self.new.images.scratch.now ≡ self.old.images.scratch.now }
    {
        if let Some(x) = self.last_join(t, e, l, r) {
            return Ok(x);
        }
        let x = self.images.builder.join(or, l, r)?;
        keep_join(self.notes, &self.images.builder.frame, t, e, l, r, x);
        Ok(x)
    }
}
