// The cheapest plan of a task file for C: operator numbers and a result, laid out as bytes.
#![tactic(auto)]

mod call;
mod giving;
mod refusals;

pub use call::plan;
