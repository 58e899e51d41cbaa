// What a run answers that was not refused.
use task::refusal::Refusal;

// How a run came to its end.
#[derive(Clone, Copy, Debug, PartialEq, Eq)]
pub enum End {
    // Every number was carried out: whether the goal holds.
    Ended(bool),
    // Why the next step was not done, and the steps done before it.
    Stopped { number: Refusal, step: u32 },
}

// A run: the steps done, their summed cost, whether the goal holds in the last state, and how the run came to its end.
#[derive(Clone, Copy, Debug, PartialEq, Eq)]
pub struct RunOutcome {
    pub steps: u32,
    pub cost: u64,
    pub goal: bool,
    pub end: End,
}
