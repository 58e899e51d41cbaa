// Building the formulas of a compiled task, in parts: begin, then one operator after another; the goal's image is the last.
#![tactic(auto)]

mod taking;

pub use taking::{begin, take_operator};

// What stands between two parts beside the builder: so many operators taken and changes recorded.
#[derive(Clone, Copy, Debug, PartialEq, Eq)]
pub struct Progress {
    pub operators: usize,
    pub records: usize,
}
