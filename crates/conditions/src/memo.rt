// The memo of effect conditions in lent scratch, and behind it what is kept for other operators. Constant cost.
ghost use Rattle.std.specs.Prelude.{◌≡◌, ◌<◌, IfSome};
ghost use Rattle.conditions.specs.Inner.Conditions.{tag, AsksKept, Recalls, Keeps, SameConditions};

use crate::kept::{keep_noted, recall_noted};
use crate::{ConditionBuilder, Target};
use formula_builder::Frame;

// The tag of a target: no other target has it, and it is not 0.
fn tag_of(t: Target) -> u16
    requires { t.variable < 512 }
    ensures { result ≡ tag t }
{
    2 * (2 * t.variable + t.clear as u16) + t.negated as u16 + 1
}

// The row of the condition of target t and effect e, if it is known.
fn recalled(notes: &[u16], scratch: &[u16], frame: &Frame, t: Target, e: usize) -> Option<u16>
    requires { AsksKept frame.now notes.now scratch.now t e }
    ensures { IfSome result (Recalls frame.now notes.now scratch.now t e) }
{
    let m = 2 * frame.formulas + e;
    if scratch[m + frame.effects] == tag_of(t) {
        return scratch[m].checked_sub(1);
    }
    recall_noted(notes, frame, t, e)
}

impl ConditionBuilder<'_, '_, '_, '_> {
    // The same, of this builder.
    pub fn recall(&self, t: Target, e: usize) -> Option<u16>
        requires { AsksKept self.now.images.builder.frame self.now.notes.now self.now.images.scratch.now t e }
        ensures { IfSome result (Recalls self.now.images.builder.frame self.now.notes.now self.now.images.scratch.now t e) }
    {
        recalled(
            self.notes,
            self.images.scratch,
            &self.images.builder.frame,
            t,
            e,
        )
    }

    // Keeps the row of the condition of target t and effect e.
    pub fn keep(&mut self, t: Target, e: usize, row: u16)
        requires { AsksKept self.old.images.builder.frame self.old.notes.now self.old.images.scratch.now t e × (row < 4096) }
        ensures kept { Keeps self.old.images.builder.frame self.old.notes.now self.new.notes.now self.old.images.scratch.now self.new.images.scratch.now t e row }
        ensures same { SameConditions self.old self.new }
        ensures builder { self.new.images.builder ≡ self.old.images.builder }
    {
        let m = 2 * self.images.builder.frame.formulas + e;
        self.images.scratch[m + self.images.builder.frame.effects] = tag_of(t);
        self.images.scratch[m] = row + 1;
        keep_noted(self.notes, &self.images.builder.frame, t, e, row);
    }
}
