// The table-level calls, exported for the tests against the other implementation. The product does not link this crate.
#![tactic(auto)]

mod buffers;
mod compiling;
mod planning;
mod reading;
mod running;
mod tables;
