// The tables of a task: their limits, their rows, and the check that every call on tables makes first.
#![tactic(auto)]

pub mod check;
pub mod copying;
pub mod counts;
pub mod kinds;
pub mod lengths;
pub mod operator_rows;
pub mod refusal;
pub mod rows;
pub mod table_rows;
pub mod tables;

// What stands before the tables: V variables, W twins ("twin" is the scope's word for an opposite variable), F formulas, E effects,
// O operators, and the number of the goal's formula.
#[derive(Clone, Copy, Debug, PartialEq, Eq)]
pub struct Head {
    pub variables: u16,
    pub twins: u16,
    pub formulas: u16,
    pub effects: u16,
    pub operators: u16,
    pub goal: u16,
}

// The tables of rows.
#[derive(Clone, Copy, Debug, PartialEq, Eq)]
pub enum Table {
    Formulas,
    Effects,
    Operators,
}

// The words of a row, in their order; a row of three has 0 behind them.
#[derive(Clone, Copy, Debug, PartialEq, Eq)]
pub struct TableRow {
    pub first: u16,
    pub second: u16,
    pub third: u16,
    pub fourth: u16,
}

pub const MOST_VARIABLES: u16 = 512;

pub const MOST_FORMULAS: u16 = 4096;

pub const MOST_EFFECTS: u16 = 4096;

pub const MOST_OPERATORS: u16 = 256;

pub const MOST_PERCENT: u16 = 200;

// What an absent percent of a file means.
pub const DEFAULT_PERCENT: u16 = 100;
