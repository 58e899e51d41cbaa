// Compiling a task file for C: into the compiled task's file.
#![tactic(auto)]

mod call;

pub use call::compile;
