// The atoms, set v and clear v, that stand in an effect row at all: a set for each row, two bits for each variable, in notes that are kept
// while compiling.
#![tactic(auto)]

mod bits;
mod pass;

pub use bits::{lacks, set_from, sets_end};
pub use pass::find_sets;
