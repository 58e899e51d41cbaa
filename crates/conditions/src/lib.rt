// The condition under which an effect sets or clears a variable, by the effect's row number. What is built is kept, and stays right for all
// operators: in a memo in lent scratch, the last target of each row, and behind it in the notes, if the row has a column there. The memo: word 2F + e
// is the row that was built for effect e, plus 1, and word 2F + E + e is the tag of the target for which it was. The notes: word e is the column
// of effect e, the three words from E + 3e on are its last join, behind those stand the sets of atoms, and behind these each column above 0 keeps
// conditions of its row, three words for each variable, or two.
#![tactic(auto)]

mod atom;
mod cycle;
mod joined;
mod kept;
mod memo;

use images::ImageBuilder;
pub use kept::width_of;

// The atom whose condition is built, "set" or "clear" of a variable; negated, the condition's dual. With the number first it has four bytes, and one
// access copies it.
#[derive(Clone, Copy, Debug, PartialEq, Eq)]
pub struct Target {
    pub variable: u16,
    pub clear: bool,
    pub negated: bool,
}

// A builder of conditions: the source's effect words, the notes, and what builds images.
#[derive(Drop)]
pub struct ConditionBuilder<'e, 'n, 's, 't> {
    pub effects: &'e [u16],
    pub notes: &'n mut [u16],
    pub images: ImageBuilder<'s, 't>,
}
