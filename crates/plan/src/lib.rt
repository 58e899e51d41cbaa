// Running plans. The single step is the stepper's, and is passed on.
#![tactic(auto)]

mod outcome;
mod refusals;
mod runs;

pub use outcome::{End, RunOutcome};
pub use runs::run;
pub use stepper::{StepOutcome, step};
