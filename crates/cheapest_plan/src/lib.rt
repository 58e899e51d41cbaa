// The cheapest plan of a task of few variables: the call, and what it answers.
#![tactic(auto)]

mod begin;
pub mod call;
mod ends;
mod expand;
mod last_steps;
mod refusals;
mod relax;
mod visits;
mod writing;

// A plan: its steps and its cost.
#[derive(Clone, Copy, Debug, PartialEq, Eq)]
pub struct CheapestPlan {
    pub steps: u32,
    pub cost: u64,
}

// Most variables, twins among them.
pub const MOST_VARIABLES: u16 = 10;
