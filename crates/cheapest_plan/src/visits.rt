// The search: states are taken from the queue, the cheapest first, of these one with the fewest steps, until the next one is a goal state.
ghost use Rattle.std.specs.Prelude.{◌≤◌, ◌<◌, length};
ghost use Rattle.task.specs.Lending.{lent_tables};
ghost use Rattle.state_queue.specs.Inner.Queue.{Roomy, Queue};
ghost use Rattle.cheapest_plan.specs.Inner.Visits.{GoalReady, GoalTold, TakenNow, Visitable, Visits, Next, Searchable, Searches};

use crate::begin::begin;
use crate::expand::{Origin, expand};
use evaluating::evaluate;
use state_codes::{find_masks, write_state};
use state_queue::{is_queued, lower, winner};
use task::MOST_EFFECTS;
use task::tables::Tables;

// Whether the goal holds in the state of code s; its formulas are evaluated. Linear in the formulas.
pub fn is_goal(tables: &Tables<'_>, s: usize, state: &mut [u8], scratch: &mut [u8]) -> bool
    requires { GoalReady (lent_tables tables.now) state.old scratch.old }
    ensures { GoalTold (lent_tables tables.now) s scratch.new result }
{
    write_state(s, state);
    evaluate(
        tables.formulas,
        0,
        tables.head.formulas as usize,
        state,
        scratch,
    );
    let goal = tables.head.goal as usize;
    scratch[goal] == 1
}

// State s is taken from the queue. As many steps as there are variables.
fn take(words: &mut [u32], n: usize, s: usize)
    requires { Roomy n words.old × Queue words.old n × (s < n) }
    ensures { TakenNow n s words.old words.new }
{
    words[s] = 0;
    lower(words, n, s);
}

// State s, the first in the queue, is taken and all operators are stepped from it, unless it is a goal state; whether it is.
fn visit(
    tables: &Tables<'_>,
    s: usize,
    state: &mut [u8],
    masks: &mut [u32],
    words: &mut [u32],
    n: usize,
    scratch: &mut [u8],
) -> bool
    requires goal_ready { GoalReady (lent_tables tables.now) state.old scratch.old }
    requires roomy { Roomy n words.old × (tables.now.head.effects ≤ length masks.old) }
    requires visitable { Visitable (lent_tables tables.now) n s words.old }
    ensures { Visits (lent_tables tables.now) n s words.old words.new result }
{
    if is_goal(tables, s, state, scratch) {
        return true;
    }
    let cost = words[s];
    let steps = words[n + s];
    take(words, n, s);
    find_masks(tables.effects, tables.head.effects as usize, scratch, masks);
    let origin = Origin {
        state: s,
        cost,
        steps,
        count: tables.head.operators as usize,
        operators: tables.operators,
        values: scratch,
        masks,
    };
    expand(&origin, words, n);
    false
}

// The state that is taken next; none if no state is queued. Constant time.
fn next(words: &[u32], n: usize) -> Option<usize>
    requires { Roomy n words.now × Queue words.now n }
    ensures { Next words.now n result }
{
    let s = winner(words, n, 1);
    if is_queued(words[s]) { Some(s) } else { None }
}

// The first goal state in the queue, whose cost and steps are the least of all plans.
pub fn search(
    tables: &Tables<'_>,
    start: usize,
    state: &mut [u8],
    words: &mut [u32],
    n: usize,
    scratch: &mut [u8],
) -> Option<usize>
    requires goal_ready { GoalReady (lent_tables tables.now) state.old scratch.old }
    requires roomy { Roomy n words.old × (tables.now.head.effects ≤ 4096) }
    requires searchable { Searchable (lent_tables tables.now) n start }
    ensures { Searches (lent_tables tables.now) n start words.new result }
{
    let mut masks = [0u32; MOST_EFFECTS as usize];
    begin(words, n, start);
    while let Some(s) = next(words, n) {
        if visit(tables, s, state, &mut masks, words, n, scratch) {
            return Some(s);
        }
    }
    None
}
