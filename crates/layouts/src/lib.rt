// What crosses to C, as bytes: a task's tables, operator numbers, a run's result.
#![tactic(auto)]

pub mod laying;
pub mod numbers;
pub mod results;
