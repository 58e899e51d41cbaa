// A run's result, laid out as bytes.
ghost use Rattle.std.specs.Prelude.{Ok, ◌≡◌, ◌≤◌, length};
ghost use Rattle.plan.specs.Outcome.{run_answered, end_told};
ghost use Rattle.layouts.specs.Inner.Giving.{stop_of, plan_of, ResultGives};

use plan::{End, RunOutcome};
use task_writer::put::{put_byte, put_bytes, put_word};

// The number of a stop, 0 without one. Constant time, as is the one below.
fn stop(end: End) -> u16
    ensures { result ≡ stop_of (end_told end) }
{
    match end {
        End::Ended(_) => 0,
        End::Stopped { number, step: _ } => number.number(),
    }
}

// Whether a run that ended so is a plan.
fn plan(end: End) -> bool
    ensures { result ≡ plan_of (end_told end) }
{
    match end {
        End::Ended(goal) => goal,
        End::Stopped { number: _, step: _ } => false,
    }
}

// The result, and 0 past it; gives the stop's number. Linear in the output.
pub fn put_result(outcome: RunOutcome, out: &mut [u8]) -> u32
    requires { 16 ≤ length out.old }
    ensures { ResultGives (run_answered (Ok outcome)) (length out.old) result out.new }
{
    let number = stop(outcome.end);
    let planned = plan(outcome.end);
    out.fill(0);
    let to_cost = put_bytes(out, 0, &outcome.steps.to_le_bytes());
    let to_goal = put_bytes(out, to_cost, &outcome.cost.to_le_bytes());
    let to_plan = put_byte(out, to_goal, u8::from(outcome.goal));
    let to_stop = put_byte(out, to_plan, u8::from(planned));
    put_word(out, to_stop, number);
    u32::from(number)
}
