// The second pass of compiling: the rules of the compiled operators as effect rows, and the new initial values.
#![tactic(auto)]

mod initial;
mod places;
mod rows;
mod rules;

pub use formula_builder::NoRoom;
pub use initial::write_initial;
pub use places::find_places;
pub use rows::store;
pub use rules::{write_changes, write_rule};

// The source's variables, the twins that stand after the goal, and how many effect rows there is room for.
#[derive(Clone, Copy, Debug, PartialEq, Eq)]
pub struct Frame {
    pub variables: usize,
    pub twins: usize,
    pub room: usize,
}

// The effect rows so far, and the row of what stands of this operator (0 before its first rule).
#[derive(Clone, Copy, Debug, PartialEq, Eq)]
pub struct Chain {
    pub rows: usize,
    pub stands: u16,
}

// A rule: set a variable, or clear it, under the row that is its condition.
#[derive(Clone, Copy, Debug, PartialEq, Eq)]
pub struct Rule {
    pub sets: bool,
    pub variable: u16,
    pub condition: u16,
}

// The rows under which an operator sets and clears a variable: in corresponding states never both hold.
#[derive(Clone, Copy, Debug, PartialEq, Eq)]
pub struct Changes {
    pub variable: u16,
    pub adds: u16,
    pub deletes: u16,
}
