// What an operator's effect does to one variable: the row under which it is set, and the row under which it is cleared.
#![tactic(auto)]

mod conflict;
mod variable;

pub use variable::change_of;

// The rows under which a variable is set and cleared, which in corresponding states never both hold.
#[derive(Clone, Copy, Debug, PartialEq, Eq)]
pub struct Change {
    pub adds: u16,
    pub deletes: u16,
}
