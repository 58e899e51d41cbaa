// The call.
ghost use Rattle.std.specs.Prelude.{ℕ, ◌^◌, ◌<◌, ◌≡◌, slice_index};
ghost use Rattle.task.specs.Lending.{lent_tables};
ghost use Rattle.stepper.specs.Stepped.{cleared};
ghost use Rattle.state_queue.specs.Inner.Queue.{Roomy};
ghost use Rattle.cheapest_plan.specs.Planned.{planned, plan_answered, PlanGives};
ghost use Rattle.cheapest_plan.specs.Inner.Plans.{PlanReady, EndsPlan, TellReady, TellsPlan, PlanFound};

use crate::ends::best_end;
use crate::refusals::{refused_early, states_of};
use crate::visits::search;
use crate::writing::write_plan;
use crate::{CheapestPlan, MOST_VARIABLES};
use state_codes::code_of;
use task::refusal::Refusal;
use task::tables::Tables;

// The state of n that ends the cheapest plan, if there is one.
fn find_end(tables: &Tables<'_>, scratch: &mut [u8], words: &mut [u32], n: usize) -> Option<usize>
    requires { PlanReady (lent_tables tables.now) scratch.old words.old × (n ≡ 2 ^ tables.now.head.variables) }
    ensures { EndsPlan (lent_tables tables.now) scratch.old words.old n words.new result }
{
    let variables = tables.head.variables as usize;
    let mut bytes = [0u8; MOST_VARIABLES as usize];
    let state = &mut bytes[..variables];
    let start = code_of(&tables.initial[..variables]);
    let first = search(tables, start, state, words, n, scratch)?;
    Some(best_end(tables, first, state, words, n, scratch))
}

// The plan that ends in this state is told, unless it is longer than the buffer, which is all 0. As many steps as it has.
fn tell_plan(words: &[u32], n: usize, end: usize, plan: &mut [u16]) -> Result<CheapestPlan, Refusal>
    requires { Roomy n words.now × TellReady n end words.now plan.old }
    ensures { TellsPlan n end words.now plan.old (plan_answered result) plan.new }
{
    let steps = words[n + end];
    if plan.len() < steps as usize {
        return Err(Refusal::LongPlan);
    }
    write_plan(words, n, end, steps as usize, plan);
    let cost = u64::from(words[end] - 1);
    Ok(CheapestPlan { steps, cost })
}

// Words have 16 bits. The check knows it of a slice by itself, and not of one in a struct; nothing is done here.
fn sixteen_bits(words: &[u16])
    ensures { (i : ℕ) → slice_index words.now i < 65536 }
{}

// The call, but for what it leaves in scratch; the plan is all 0.
fn find_plan(
    tables: &Tables<'_>,
    plan: &mut [u16],
    scratch: &mut [u8],
    words: &mut [u32],
) -> Result<CheapestPlan, Refusal>
    requires { plan.old ≡ cleared plan.old }
    ensures { PlanFound (planned (lent_tables tables.now) plan.old scratch.old words.old) (plan_answered result) plan.new }
{
    refused_early(tables, scratch, words)?;
    sixteen_bits(tables.operators);
    let n = states_of(tables.head.variables);
    let end = find_end(tables, scratch, words, n).ok_or(Refusal::NoPlan)?;
    tell_plan(words, n, end, plan)
}

// The plan of least cost from the initial state, of these one with the fewest steps, of these the first by operator numbers from the front. Scratch
// of F + E bytes and of four words for each state, of any content, ends as 0. Cost: the check of the tables once; each state is taken at most once,
// and then costs F + E + O and the walks where lists of the same cost and length are compared.
#[tactic(auto, using(crate::proofs::Calls::planned_clear, crate::proofs::Calls::planned_scratch, crate::proofs::Calls::planned_words))]
pub fn cheapest(
    tables: &Tables<'_>,
    plan: &mut [u16],
    scratch: &mut [u8],
    words: &mut [u32],
) -> Result<CheapestPlan, Refusal>
    ensures { PlanGives (planned (lent_tables tables.now) plan.old scratch.old words.old) (plan_answered result) plan.new scratch.new words.new }
{
    plan.fill(0);
    let answer = find_plan(tables, plan, scratch, words);
    scratch.fill(0);
    words.fill(0);
    answer
}
