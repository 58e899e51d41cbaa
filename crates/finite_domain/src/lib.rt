// Tasks with named values (finite domains): their tables and the check of these; in specs/ their meaning and their plain run.
#![tactic(auto)]

pub mod check;
mod counts;
mod lengths;
mod rows;
mod values;

use task::Head;

// The tables that a call is lent: the head, and for each table at least as many words as the head counts; a value count and an initial value for
// each variable.
#[derive(Clone, Copy)]
pub struct FiniteTables<'a> {
    pub head: Head,
    pub counts: &'a [u16],
    pub initial: &'a [u16],
    pub formulas: &'a [u16],
    pub effects: &'a [u16],
    pub operators: &'a [u16],
}

pub const MOST_VARIABLES: u16 = 64;

pub const MOST_VALUES: u16 = 16;
