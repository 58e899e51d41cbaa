// A list of operators leads to a state: it is kept if it is better than the one that stands there.
ghost use Rattle.std.specs.Prelude.{◌+◌, ◌*◌, ◌≡◌};
ghost use Rattle.state_queue.specs.Inner.Queue.{Roomy};
ghost use Rattle.cheapest_plan.specs.Inner.Tables.{Pairs, Notes, Relaxable, Judges, MayQueue, QueuedNow, Relaxes};

use crate::last_steps::{parent_of, precedes};
use state_queue::raise;

// A list that leads to a state: its cost and one, its length, and its last step.
#[derive(Clone, Copy, Debug, PartialEq, Eq)]
pub struct Arrival {
    pub state: usize,
    pub cost: u32,
    pub steps: u32,
    pub last: u32,
}

// Whether the list of state a comes before that of state b, by their numbers. What is found is noted for b. As many steps as `precedes`, or constant
// time.
fn compared(words: &[u32], n: usize, a: usize, b: usize, notes: &mut [Option<bool>]) -> bool
    requires { Roomy n words.now × Pairs n words.now a b notes.old }
    ensures { Notes n words.now a b notes.old notes.new result }
{
    if let Some(comes_first) = notes[b] {
        return comes_first;
    }
    let comes_first = precedes(words, n, words[2 * n + a], words[2 * n + b]);
    notes[b] = Some(comes_first);
    comes_first
}

// Cost and steps as one number that is compared. Constant time.
fn joint(cost: u32, steps: u32) -> u64
    ensures { result ≡ cost * 4294967296 + steps }
{
    u64::from(cost) * 4294967296 + u64::from(steps)
}

// Whether the list that stands at the state stays: it costs less, or is shorter, or the new one does not come first by its numbers. As many steps as
// `compared`.
fn judge(words: &[u32], n: usize, arrival: Arrival, notes: &mut [Option<bool>]) -> bool
    requires { Roomy n words.now × Relaxable n words.now arrival.state arrival.cost arrival.steps arrival.last notes.old }
    ensures { Judges n words.now arrival.state arrival.cost arrival.steps arrival.last notes.old notes.new result }
{
    let t = arrival.state;
    let old = joint(words[t], words[n + t]);
    let new = joint(arrival.cost, arrival.steps);
    if old != new {
        return old < new;
    }
    let last = words[2 * n + t];
    !compared(words, n, parent_of(arrival.last), parent_of(last), notes)
}

// The state is queued with this list. As many steps as there are variables.
fn queue(words: &mut [u32], n: usize, arrival: Arrival)
    requires { MayQueue n words.old arrival.state arrival.cost arrival.steps }
    ensures { QueuedNow n arrival.state arrival.cost arrival.steps arrival.last words.old words.new }
{
    let t = arrival.state;
    words[t] = arrival.cost;
    words[n + t] = arrival.steps;
    words[2 * n + t] = arrival.last;
    raise(words, n, t);
}

// A list leads to a state. A state that was taken has its list. The notes are those of the state which the last step leaves.
pub fn relax(words: &mut [u32], n: usize, arrival: Arrival, notes: &mut [Option<bool>])
    requires { Roomy n words.old × Relaxable n words.old arrival.state arrival.cost arrival.steps arrival.last notes.old }
    ensures { Relaxes n arrival.state arrival.cost arrival.steps arrival.last notes.old words.old words.new notes.new }
{
    if !judge(words, n, arrival, notes) {
        queue(words, n, arrival);
    }
}
