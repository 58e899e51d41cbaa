// States of few variables as numbers, and what effects make of them.
#![tactic(auto)]

mod codes;
mod masks;

pub use codes::{code_of, write_state};
pub use masks::{find_masks, next_code};
