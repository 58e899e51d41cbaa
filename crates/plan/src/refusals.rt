// What refuses a run before an operator is looked at.
ghost use Rattle.std.specs.Prelude.{◌≡◌};
ghost use Rattle.task.specs.Lending.{lent_tables};
ghost use Rattle.task.specs.Refused.{told};
ghost use Rattle.plan.specs.Outcome.{run_refusal};

use stepper::refused_early;
use task::refusal::Refusal;
use task::tables::Tables;

// The first in order: what refuses a step, then too long a sequence.
#[tactic(auto, using(crate::proofs::Refusing::run_refused_long))]
pub fn refused_run(
    tables: &Tables<'_>,
    state: &[u8],
    sequence: &[u16],
    scratch: &[u8],
) -> Result<(), Refusal>
    ensures { told result ≡ run_refusal (lent_tables tables.now) state.now sequence.now scratch.now }
{
    refused_early(tables, state, scratch)?;
    if 65535 < sequence.len() {
        return Err(Refusal::LongSequence);
    }
    Ok(())
}
