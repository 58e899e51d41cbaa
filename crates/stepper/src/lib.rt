// The stepper: the call that carries out one operator, and what refuses it.
#![tactic(auto)]

mod refusals;
mod single;

pub use refusals::refused_early;
pub use single::step;

// A single step that was done: 1 step, what it is charged, and whether the goal holds after it.
#[derive(Clone, Copy, Debug, PartialEq, Eq)]
pub struct StepOutcome {
    pub steps: u32,
    pub cost: u64,
    pub goal: bool,
}
