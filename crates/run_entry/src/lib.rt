// Running operator numbers on a task file for C: the state changes, the result is laid out as bytes.
#![tactic(auto)]

mod call;

pub use call::run;
