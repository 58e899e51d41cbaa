// What the walk over each operator found, kept for its rules. Records of three words: of 256 operators, each the row of its precondition and
// where its changes end, then of 2,048 changes. A finished task has at most 4,096 effect rows, and a change that is kept brings two or more.
#![tactic(auto)]

mod keep;

pub use keep::{keep_change, kept_change};
use task::MOST_OPERATORS;

// The record of the first change: it stands behind those of the operators.
const FIRST_CHANGE: usize = MOST_OPERATORS as usize;

// The changes that there is room for.
const MOST_CHANGES: usize = 2048;
