// Writing task files: tables become bytes.
#![tactic(auto)]

pub mod put;
pub mod put_row;
pub mod put_tables;
pub mod write;
