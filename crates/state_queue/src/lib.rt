// The queue of states in which the search for the cheapest plan takes them.
#![tactic(auto)]

mod nodes;

pub use nodes::{is_queued, lower, raise, set_nodes, winner};

// The word of a state in the queue is its cost and one; of a state that was taken 0, and of one that was not reached this.
pub const NOT_REACHED: u32 = u32::MAX;
