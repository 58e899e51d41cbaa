// Tables of one's own, with room for every task: reading through them never gives 5, compiling into them never 14, and 15 for the limits alone.
#![tactic(auto)]

mod own;

pub use own::{
    FULL_OPERATOR_WORDS, FULL_ROW_WORDS, FULL_TWINS, OwnTables, SMALL_OPERATOR_WORDS,
    SMALL_ROW_WORDS, SMALL_TWINS,
};
