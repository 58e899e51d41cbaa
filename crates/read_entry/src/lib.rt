// Reading a task file for C: into the layout of its tables.
#![tactic(auto)]

mod call;

pub use call::read;
