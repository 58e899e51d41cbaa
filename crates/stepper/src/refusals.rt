// What refuses a step before its operator is looked at.
ghost use Rattle.std.specs.Prelude.{◌≡◌};
ghost use Rattle.task.specs.Lending.{lent_tables};
ghost use Rattle.task.specs.Refused.{told};
ghost use Rattle.stepper.specs.Stepped.{early_refusal};

use task::check::{bits, check};
use task::refusal::Refusal;
use task::tables::Tables;

// The first in order: the tables' own refusal, a wrong state, too short a scratch. Linear in the tables and the state.
pub fn refused_early(tables: &Tables<'_>, state: &[u8], scratch: &[u8]) -> Result<(), Refusal>
    ensures { told result ≡ early_refusal (lent_tables tables.now) state.now scratch.now }
{
    check(tables)?;
    let head = tables.head;
    if state.len() != head.variables as usize || !bits(state) {
        return Err(Refusal::State);
    }
    if scratch.len() < head.formulas as usize + head.effects as usize {
        return Err(Refusal::ShortScratch);
    }
    Ok(())
}
