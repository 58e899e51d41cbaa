// The search begins: the initial state alone is queued.
ghost use Rattle.std.specs.Prelude.{◌<◌};
ghost use Rattle.state_queue.specs.Inner.Queue.{Roomy};
ghost use Rattle.cheapest_plan.specs.Inner.Visits.{Emptied, Begun};

use state_queue::{NOT_REACHED, raise, set_nodes};

// No state is reached. Linear in the states, as is the one below.
fn empty(words: &mut [u32], n: usize)
    requires { Roomy n words.old }
    ensures { Emptied n words.new }
{
    words[..n].fill(NOT_REACHED);
    words[n..3 * n].fill(0);
}

// The initial state alone is queued, at cost 0 and 0 steps.
pub fn begin(words: &mut [u32], n: usize, start: usize)
    requires { Roomy n words.old × (start < n) }
    ensures { Begun n start words.new }
{
    empty(words, n);
    set_nodes(words, n);
    words[start] = 1;
    raise(words, n, start);
}
