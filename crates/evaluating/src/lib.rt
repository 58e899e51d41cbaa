// Evaluating formulas in a state.
#![tactic(auto)]

mod formulas;

pub use formulas::{evaluate, holds};
