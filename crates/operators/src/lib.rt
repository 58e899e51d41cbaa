// Building operators: of each its precondition, then what its effect does to each variable that it touches, which is recorded.
#![tactic(auto)]

mod operator;
mod walk;

pub use operator::build_operator;

// An operator that is built: the row of its precondition, and so many changes are recorded.
#[derive(Clone, Copy, Debug, PartialEq, Eq)]
pub struct Tally {
    pub row: u16,
    pub records: usize,
}
