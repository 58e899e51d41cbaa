// The compiled task's file for C, from a source's tables that pass.
#![tactic(auto)]

mod compiling;
mod filing;

pub use compiling::compile_tables;
pub use filing::refuse;
