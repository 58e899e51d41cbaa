// Applying an effect to a state, in place.
#![tactic(auto)]

mod effects;

pub use effects::carry_out;
