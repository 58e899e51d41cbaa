// Every operator is stepped once from a state that was taken from the queue.
ghost use Rattle.std.specs.Prelude.{◌+◌, ◌<◌};
ghost use Rattle.cheapest_plan.specs.Inner.Visits.{Steppable, StepsOn, Expandable, Expands};

use crate::relax::{Arrival, relax};
use state_codes::next_code;
use task::operator_rows::operator_at;

// As many states as there may be.
const MOST_STATES: usize = 1024;

// The state that was taken, its cost and one and its steps; the operators, so many of them; and in that state the values of all formulas and what
// each effect does.
#[derive(Clone, Copy)]
pub struct Origin<'a> {
    pub state: usize,
    pub cost: u32,
    pub steps: u32,
    pub count: usize,
    pub operators: &'a [u16],
    pub values: &'a [u8],
    pub masks: &'a [u32],
}

// Operator o is stepped, if it is applicable there. The notes are what `compared` keeps of the state that was taken.
fn step_from(origin: &Origin<'_>, o: usize, words: &mut [u32], n: usize, notes: &mut [Option<bool>])
    requires { (o < origin.now.count) × Steppable n origin.now words.old notes.old o }
    ensures { StepsOn n origin.now notes.old o words.old words.new notes.new }
{
    let operator = operator_at(origin.operators, o);
    if origin.values[operator.precondition as usize] == 0 {
        return;
    }
    let mask = origin.masks[operator.effect as usize];
    let arrival = Arrival {
        state: next_code(origin.state, mask),
        cost: origin.cost + operator.charge(),
        steps: origin.steps + 1,
        last: (256 * (origin.state + 1) + o) as u32,
    };
    relax(words, n, arrival, notes);
}

// All operators, upwards: where another operator of the same state led, it is lower, and its list stays. Lists that tie are compared once for each
// state that the other one comes from, however many operators lead there: without the notes, 256 operators from each of four ways of 256 steps that
// tie took seven times as long.
pub fn expand(origin: &Origin<'_>, words: &mut [u32], n: usize)
    requires { Expandable n origin.now words.old }
    ensures { Expands n origin.now words.old words.new }
{
    let mut notes = [None; MOST_STATES];
    notes[origin.state] = Some(false);
    for o in 0..origin.count {
        step_from(origin, o, words, n, &mut notes);
    }
}
