// The rules of the operators, written from what the walks recorded, once all formulas and twins are built.
#![tactic(auto)]

mod operator;
mod sequence;

pub use sequence::assemble_operators;
