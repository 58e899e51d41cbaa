// Stepping and running.
ghost use Rattle.std.specs.Prelude.{◌≡◌};
ghost use Rattle.task.specs.Table.{lent};
ghost use Rattle.stepper.specs.Stepped.{step_answered};
ghost use Rattle.plan.specs.Outcome.{stepped, ran, run_answered};
ghost use Rattle.test_calls.specs.Running.{step_words, run_words, StepTells, RunTells};

use crate::buffers;
use plan::{End, RunOutcome, StepOutcome};
use task::refusal::Refusal;

// Steps, cost and goal; all 0 after a refusal.
#[tactic(auto, unfolding(crate::specs::Running::step_words))]
fn step_words(answer: Result<StepOutcome, Refusal>) -> [u64; 3]
    ensures { result ≡ step_words (step_answered answer) }
{
    match answer {
        Ok(step) => [u64::from(step.steps), step.cost, u64::from(step.goal)],
        Err(_) => [0; 3],
    }
}

// Steps, cost and goal, a stop's number and step, and the goal of a run that ended; all 0 after a refusal.
#[tactic(auto, unfolding(crate::specs::Running::run_words))]
fn run_words(answer: Result<RunOutcome, Refusal>) -> [u64; 6]
    ensures { result ≡ run_words (run_answered answer) }
{
    let Ok(run) = answer else {
        return [0; 6];
    };
    let (stop, step, ended) = match run.end {
        End::Ended(goal) => (0, 0, goal),
        End::Stopped { number, step } => (number.number(), step, false),
    };
    [
        u64::from(run.steps),
        run.cost,
        u64::from(run.goal),
        u64::from(stop),
        u64::from(step),
        u64::from(ended),
    ]
}

// `plan::step`, with the head as six numbers; its steps, cost and goal go to a result of three words.
#[unsafe(no_mangle)]
pub extern "C" fn test_step(
    v: u16,
    w: u16,
    f: u16,
    e: u16,
    o: u16,
    goal: u16,
    initial: &[u8],
    twins: &[u16],
    formulas: &[u16],
    effects: &[u16],
    operators: &[u16],
    state: &mut [u8],
    number: u16,
    scratch: &mut [u8],
    res: &mut [u64],
) -> u16
    ensures { StepTells (stepped (lent (record { variables = v; twins = w; formulas = f; effects = e; operators = o; goal = goal }) initial.now twins.now formulas.now effects.now operators.now) state.old number scratch.old) res.old result state.new scratch.new res.new }
{
    let tables = buffers::tables(
        v, w, f, e, o, goal, initial, twins, formulas, effects, operators,
    );
    let answer = plan::step(&tables, state, number, scratch);
    buffers::tell(res, &step_words(answer));
    buffers::number(answer)
}

// `plan::run`, likewise; the result has six words. A run that 17 or 18 stops is not refused.
#[unsafe(no_mangle)]
pub extern "C" fn test_run(
    v: u16,
    w: u16,
    f: u16,
    e: u16,
    o: u16,
    goal: u16,
    initial: &[u8],
    twins: &[u16],
    formulas: &[u16],
    effects: &[u16],
    operators: &[u16],
    state: &mut [u8],
    sequence: &[u16],
    scratch: &mut [u8],
    res: &mut [u64],
) -> u16
    ensures { RunTells (ran (lent (record { variables = v; twins = w; formulas = f; effects = e; operators = o; goal = goal }) initial.now twins.now formulas.now effects.now operators.now) state.old sequence.now scratch.old) res.old result state.new scratch.new res.new }
{
    let tables = buffers::tables(
        v, w, f, e, o, goal, initial, twins, formulas, effects, operators,
    );
    let answer = plan::run(&tables, state, sequence, scratch);
    buffers::tell(res, &run_words(answer));
    buffers::number(answer)
}
