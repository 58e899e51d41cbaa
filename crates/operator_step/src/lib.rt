// Carrying out one operator of tables that keep their rules.
#![tactic(auto)]

mod operator;

pub use operator::take;
