// The plan that was found is written, from its end.
ghost use Rattle.std.specs.Prelude.{◌≤◌, length};
ghost use Rattle.state_queue.specs.Inner.Queue.{Roomy};
ghost use Rattle.cheapest_plan.specs.Inner.Visits.{Writable, Writes};

use crate::last_steps::{operator_of, parent_of};

// The list of a state goes to the front of the plan. As many steps as it has.
pub fn write_plan(words: &[u32], n: usize, state: usize, steps: usize, plan: &mut [u16])
    requires { Roomy n words.now × Writable n words.now state steps × (steps ≤ length plan.old) }
    ensures { Writes n words.now state steps plan.old plan.new }
{
    let mut s = state;
    for k in (0..steps).rev() {
        let step = words[2 * n + s];
        plan[k] = operator_of(step);
        s = parent_of(step);
    }
}
