// The cheapest plan.
ghost use Rattle.std.specs.Prelude.{◌≡◌};
ghost use Rattle.task.specs.Table.{lent};
ghost use Rattle.cheapest_plan.specs.Planned.{planned, plan_answered};
ghost use Rattle.test_calls.specs.Planning.{plan_words, PlanTells};

use crate::buffers;
use cheapest_plan::CheapestPlan;
use task::refusal::Refusal;

// Steps and cost; both 0 after a refusal.
#[tactic(auto, unfolding(crate::specs::Planning::plan_words))]
fn plan_words(answer: Result<CheapestPlan, Refusal>) -> [u64; 2]
    ensures { result ≡ plan_words (plan_answered answer) }
{
    match answer {
        Ok(plan) => [u64::from(plan.steps), plan.cost],
        Err(_) => [0; 2],
    }
}

// `cheapest_plan::call::cheapest`, with the head as six numbers; its steps and cost go to a result of two words.
#[unsafe(no_mangle)]
pub extern "C" fn test_cheapest(
    v: u16,
    w: u16,
    f: u16,
    e: u16,
    o: u16,
    goal: u16,
    initial: &[u8],
    twins: &[u16],
    formulas: &[u16],
    effects: &[u16],
    operators: &[u16],
    plan: &mut [u16],
    scratch: &mut [u8],
    words: &mut [u32],
    res: &mut [u64],
) -> u16
    ensures { PlanTells (planned (lent (record { variables = v; twins = w; formulas = f; effects = e; operators = o; goal = goal }) initial.now twins.now formulas.now effects.now operators.now) plan.old scratch.old words.old) res.old result plan.new scratch.new words.new res.new }
{
    let tables = buffers::tables(
        v, w, f, e, o, goal, initial, twins, formulas, effects, operators,
    );
    let answer = cheapest_plan::call::cheapest(&tables, plan, scratch, words);
    buffers::tell(res, &plan_words(answer));
    buffers::number(answer)
}
