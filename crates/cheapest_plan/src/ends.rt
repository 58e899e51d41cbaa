// The ends of plans of the least cost and steps: of these states the one whose list comes first.
ghost use Rattle.std.specs.Prelude.{◌<◌};
ghost use Rattle.task.specs.Lending.{lent_tables};
ghost use Rattle.state_queue.specs.Inner.Queue.{Roomy};
ghost use Rattle.cheapest_plan.specs.Inner.Visits.{GoalReady, EndReady, Replaces, FindsEnd};

use crate::last_steps::precedes;
use crate::visits::is_goal;
use task::tables::Tables;

// Whether state t is a goal state of the same cost and steps as the end that was found, and its list comes first. As many steps as `precedes` and
// `is_goal` take.
fn replaces(
    tables: &Tables<'_>,
    end: usize,
    t: usize,
    state: &mut [u8],
    words: &[u32],
    n: usize,
    scratch: &mut [u8],
) -> bool
    requires goal_ready { GoalReady (lent_tables tables.now) state.old scratch.old }
    requires roomy { Roomy n words.now × (t < n) }
    requires end_ready { EndReady (lent_tables tables.now) n end words.now }
    ensures { Replaces (lent_tables tables.now) n end t words.now result }
{
    words[t] == words[end]
        && words[n + t] == words[n + end]
        && precedes(words, n, words[2 * n + t], words[2 * n + end])
        && is_goal(tables, t, state, scratch)
}

// The best of all goal states of the same cost and steps as this one. Linear in the states, and in the formulas for those that may replace it.
pub fn best_end(
    tables: &Tables<'_>,
    first: usize,
    state: &mut [u8],
    words: &[u32],
    n: usize,
    scratch: &mut [u8],
) -> usize
    requires goal_ready { GoalReady (lent_tables tables.now) state.old scratch.old }
    requires roomy { Roomy n words.now × EndReady (lent_tables tables.now) n first words.now }
    ensures { FindsEnd (lent_tables tables.now) n first words.now result }
{
    let mut end = first;
    for t in 0..n {
        if replaces(tables, end, t, state, words, n, scratch) {
            end = t;
        }
    }
    end
}
