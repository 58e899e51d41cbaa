// Image and negated image of a source formula, by row number, with a memo in lent scratch: word i for row i's image,
// word F + i for its negated image, each the row that was built plus 1; or 0, where nothing is known.
#![tactic(auto)]

mod cycle;
mod literals;
mod memo;

use formula_builder::Builder;

// A builder of images: the source's formula words, the lent scratch, and the tables that building writes.
#[derive(Drop)]
pub struct ImageBuilder<'s, 't> {
    pub formulas: &'s [u16],
    pub scratch: &'s mut [u16],
    pub builder: Builder<'t>,
}
