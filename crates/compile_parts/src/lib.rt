// Compiling in parts, over lent tables and tables of the caller's own: all that is built, then all that is written.
#![tactic(auto)]

mod batch;
mod last;
#[cfg(test)]
mod tests;
mod whole;

use formula_builder::Frame;
pub use formula_builder::NoRoom;
pub use last::{finish, finish_bare};
pub use whole::build;

// The source's counts and how much there is room for: in the frame its variables, formulas and effects, and room for rows and twins; then its
// operators, the number of its goal, and room for effect rows.
#[derive(Clone, Copy)]
pub struct Counts {
    pub frame: Frame,
    pub operators: usize,
    pub goal: usize,
    pub room: usize,
}

// The numbers of rows, twins and effect rows of the finished task, and its goal.
#[derive(Clone, Copy, Debug, PartialEq, Eq)]
pub struct Filled {
    pub rows: u16,
    pub twins: u16,
    pub effects: u16,
    pub goal: u16,
}
