// Compiling a task to positive normal form: the call, with all its refusals, over tables that the caller lends and tables of its own frame.
#![tactic(auto)]

mod call;
mod clear;
mod frames;
mod heads;
mod layout;
mod numbers;
mod sizes;

pub use call::compile;

// How many bytes or words of each of the six lent tables there are.
#[derive(Clone, Copy, Debug, PartialEq, Eq)]
struct Lengths {
    values: usize,
    originals: usize,
    table: usize,
    out: usize,
    written: usize,
    scratch: usize,
}
