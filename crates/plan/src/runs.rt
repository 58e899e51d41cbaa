// Runs of operator numbers.
ghost use Rattle.std.specs.Prelude.{◌≤◌, length};
ghost use Rattle.task.specs.Lending.{lent_tables};
ghost use Rattle.task.specs.Table.{task_of};
ghost use Rattle.operator_step.specs.Inner.Steps.{Ready};
ghost use Rattle.plan.specs.Outcome.{outcome_told, ran, run_answered, RunGives};
ghost use Rattle.plan.specs.Inner.Done.{RunDone, RunTold};

use crate::outcome::{End, RunOutcome};
use crate::refusals::refused_run;
use evaluating::holds;
use operator_step::take;
use task::refusal::Refusal;
use task::tables::Tables;

// The run where nothing refuses it. Its steps times the formulas and the effects.
fn run_ready(
    tables: &Tables<'_>,
    state: &mut [u8],
    sequence: &[u16],
    scratch: &mut [u8],
) -> RunOutcome
    requires ready { Ready (lent_tables tables.now) state.old scratch.old }
    requires sequence_len_bound { length sequence.now ≤ 65535 }
    ensures { RunDone (task_of (lent_tables tables.now)) state.old sequence.now (outcome_told result) state.new }
{
    let goal = tables.head.goal as usize;
    let mut steps: u32 = 0;
    let mut cost: u64 = 0;
    for number in sequence {
        match take(tables, state, *number, scratch) {
            Ok(charge) => {
                steps += 1;
                cost += u64::from(charge);
            }
            Err(number) => {
                let there = holds(tables.formulas, goal, state, scratch);
                return RunOutcome {
                    steps,
                    cost,
                    goal: there,
                    end: End::Stopped {
                        number,
                        step: steps,
                    },
                };
            }
        }
    }
    let reached = holds(tables.formulas, goal, state, scratch);
    RunOutcome {
        steps,
        cost,
        goal: reached,
        end: End::Ended(reached),
    }
}

// The run, which leaves what it worked with in scratch.
#[tactic(auto, using(crate::proofs::Refusing::run_ready, crate::proofs::Refusing::short_enough, crate::proofs::Calls::ran_refused, crate::proofs::Calls::ran_left, crate::proofs::Calls::ran_answer, crate::proofs::Calls::ran_state, crate::proofs::Calls::numbered))]
fn run_told(
    tables: &Tables<'_>,
    state: &mut [u8],
    sequence: &[u16],
    scratch: &mut [u8],
) -> Result<RunOutcome, Refusal>
    ensures { RunTold (ran (lent_tables tables.now) state.old sequence.now scratch.old) (run_answered result) state.new }
{
    refused_run(tables, state, sequence, scratch)?;
    Ok(run_ready(tables, state, sequence, scratch))
}

// The numbers are carried out from the front until one is refused. Scratch of F + E bytes, of any content, ends as 0.
// Cost: the check of the tables once, then F + E + V a step.
#[tactic(auto, using(crate::proofs::Calls::ran_scratch))]
pub fn run(
    tables: &Tables<'_>,
    state: &mut [u8],
    sequence: &[u16],
    scratch: &mut [u8],
) -> Result<RunOutcome, Refusal>
    ensures { RunGives (ran (lent_tables tables.now) state.old sequence.now scratch.old) (run_answered result) state.new scratch.new }
{
    let outcome = run_told(tables, state, sequence, scratch);
    scratch.fill(0);
    outcome
}
