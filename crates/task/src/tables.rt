// The tables that a call is lent.
ghost use Rattle.std.specs.Prelude.{◌≡◌};
ghost use Rattle.task.specs.Lending.{lent_tables, table_lengths};
ghost use Rattle.task.specs.Check.{lengths_of};

use crate::Head;

// The head, and for each table at least as many words (of the initial state: bytes) as the head counts.
#[derive(Clone, Copy)]
pub struct Tables<'a> {
    pub head: Head,
    pub initial: &'a [u8],
    pub twins: &'a [u16],
    pub formulas: &'a [u16],
    pub effects: &'a [u16],
    pub operators: &'a [u16],
}

// How many words (of the initial state: bytes) each table has.
#[derive(Clone, Copy, Debug, PartialEq, Eq)]
pub struct Lengths {
    pub initial: usize,
    pub twins: usize,
    pub formulas: usize,
    pub effects: usize,
    pub operators: usize,
}

impl Tables<'_> {
    // Constant time.
    pub fn lengths(&self) -> Lengths
        ensures { table_lengths result ≡ lengths_of (lent_tables self.now) }
    {
        Lengths {
            initial: self.initial.len(),
            twins: self.twins.len(),
            formulas: self.formulas.len(),
            effects: self.effects.len(),
            operators: self.operators.len(),
        }
    }
}
