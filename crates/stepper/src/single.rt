// Single steps.
ghost use Rattle.std.specs.Prelude.{◌≡◌};
ghost use Rattle.task.specs.Lending.{lent_tables};
ghost use Rattle.stepper.specs.Stepped.{stepped, step_answered, StepGives};
ghost use Rattle.stepper.specs.Inner.Done.{StepDone};

use crate::StepOutcome;
use crate::refusals::refused_early;
use evaluating::holds;
use operator_step::take;
use task::refusal::Refusal;
use task::tables::Tables;

// The step, which leaves what it worked with in scratch.
fn step_done(
    tables: &Tables<'_>,
    state: &mut [u8],
    number: u16,
    scratch: &mut [u8],
) -> Result<StepOutcome, Refusal>
    ensures { StepDone (stepped (lent_tables tables.now) state.old number scratch.old) (step_answered result) state.new }
{
    refused_early(tables, state, scratch)?;
    let charge = take(tables, state, number, scratch)?;
    let goal = tables.head.goal as usize;
    Ok(StepOutcome {
        steps: 1,
        cost: u64::from(charge),
        goal: holds(tables.formulas, goal, state, scratch),
    })
}

// One operator is carried out in the state. Scratch of F + E bytes, of any content, ends as 0.
// Cost: the check of the tables, then F + E + V.
pub fn step(
    tables: &Tables<'_>,
    state: &mut [u8],
    number: u16,
    scratch: &mut [u8],
) -> Result<StepOutcome, Refusal>
    ensures { StepGives (stepped (lent_tables tables.now) state.old number scratch.old) (step_answered result) state.new scratch.new }
{
    let outcome = step_done(tables, state, number, scratch);
    scratch.fill(0);
    outcome
}
