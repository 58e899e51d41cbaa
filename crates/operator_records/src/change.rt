// The change of one percent in a lent list of records.
ghost use Rattle.std.specs.Prelude.{◌≡◌};
ghost use Rattle.task.specs.Refused.{told};
ghost use Rattle.operator_records.specs.Change.{number_of, change, ChangeGives};

use crate::OperatorRecord;
use task::MOST_PERCENT;
use task::refusal::Refusal;

// What decides a change, over plain numbers: 17, then 24, then none.
#[tactic(auto, unfolding(crate::specs::Change::number_of))]
fn check_change(count: usize, number: usize, percent: u16) -> Result<(), Refusal>
    ensures { told result ≡ number_of count number percent }
{
    if count <= number {
        return Err(Refusal::NoOperator);
    }
    if MOST_PERCENT < percent {
        return Err(Refusal::Percent);
    }
    Ok(())
}

// Changes the percent of the operator with that number, and no other record; a refusal changes nothing. Thin: it asks
// `check_change`, and stores.
pub fn set_percent(records: &mut [OperatorRecord], number: u16, percent: u16) -> Result<(), Refusal>
    ensures { ChangeGives (change records.old number percent) (told result) records.new }
{
    let at = number as usize;
    check_change(records.len(), at, percent)?;
    records[at].percent = percent;
    Ok(())
}
