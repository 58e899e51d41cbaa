// Reading task files: bytes become tables.
#![tactic(auto)]

mod clear;
mod fill;
pub mod read;
mod read_head;
mod read_row;
mod read_rows;
mod read_state;
mod read_twins;
mod reader;
