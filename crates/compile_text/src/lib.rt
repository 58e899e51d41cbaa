// The text that the program prints, from the bytes of its input: reading, compiling and printing through tables of its own.
#![tactic(auto)]

mod answers;
mod compiling;
mod text;

pub use text::text_of;

// Room for every text.
pub const MOST_TEXT: usize = 165408;
