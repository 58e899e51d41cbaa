// The memo.
ghost use Rattle.std.specs.Prelude.{◌≡◌, ◌≤◌, ◌<◌};
ghost use Rattle.formula_builder.specs.Inner.Held.{side};
ghost use Rattle.images.specs.Inner.Images.{memo_place};

use crate::ImageBuilder;

impl ImageBuilder<'_, '_> {
    // Where the memo has the image of formula i, or its negated image.
    pub fn word_of(&self, i: usize, not: bool) -> usize
        requires { (i < self.now.builder.frame.formulas) × (self.now.builder.frame.formulas ≤ 4096) }
        ensures { result ≡ memo_place self.now.builder.frame (side not) i }
    {
        if not {
            self.builder.frame.formulas + i
        } else {
            i
        }
    }
}
