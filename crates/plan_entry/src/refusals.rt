// What refuses the entry before it searches.
ghost use Rattle.std.specs.Prelude.{◌≡◌};
ghost use Rattle.task.specs.Refused.{told};
ghost use Rattle.plan_entry.specs.Entry.{plan_number};

use cheapest_plan::MOST_VARIABLES;
use task::Head;
use task::refusal::Refusal;

// The first in order: 21, 20. Constant time.
#[tactic(auto, unfolding(crate::specs::Entry::plan_number, cheapest_plan::specs::Planned::few_variables))]
pub fn refused_plan(head: Head, room: usize) -> Result<(), Refusal>
    ensures { told result ≡ plan_number head room }
{
    if MOST_VARIABLES < head.variables {
        return Err(Refusal::ManyVariables);
    }
    if room < 12 {
        return Err(Refusal::ShortOutput);
    }
    Ok(())
}
