// Building the formula table of a compiled task: a row or a twin is found in the tables that are lent, or appended. So do the steps built on these, of
// images and conditions: each answers the number of its row, or that there is no room.
#![tactic(auto)]

mod index;
mod rows;
mod stepping;

pub use rows::{first_rows, read_row};
pub use stepping::{falsity, truth};

// There is no room for a row or a twin.
#[derive(Clone, Copy, Debug, PartialEq, Eq)]
pub struct NoRoom;

// A row's three words.
#[derive(Clone, Copy, Debug, PartialEq, Eq)]
pub struct Words {
    pub kind: u16,
    pub a: u16,
    pub b: u16,
}

// The source's counts of variables, formulas and effects, and how many rows and twins the compiled task has room for.
#[derive(Clone, Copy, Debug, PartialEq, Eq)]
pub struct Frame {
    pub variables: usize,
    pub formulas: usize,
    pub effects: usize,
    pub rows: usize,
    pub twins: usize,
}

// The tables that building writes: so many rows stand in one, with their index behind them, and the originals of so many twins in the other.
#[derive(Drop)]
pub struct Builder<'t> {
    pub frame: Frame,
    pub rows: usize,
    pub twins: usize,
    pub table: &'t mut [u16],
    pub originals: &'t mut [u16],
}
