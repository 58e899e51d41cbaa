// The lines that the compiling program prints: those of a task, or of a refusal.
#![tactic(auto)]

mod bytes;
mod calls;
mod lines;

pub use calls::{print, print_refusal};
