// The plan that was found, laid out as bytes.
ghost use Rattle.std.specs.Prelude.{◌≤◌, length, take};
ghost use Rattle.task.specs.Refused.{told};
ghost use Rattle.cheapest_plan.specs.Cheapest.{plan_of};
ghost use Rattle.plan_entry.specs.Entry.{plan_picked, PlanEntryGives};
ghost use Rattle.plan_entry.specs.Inner.Giving.{Clear};

use cheapest_plan::CheapestPlan;
use task::refusal::Refusal;
use task_writer::put::put_bytes;
use task_writer::put_tables::put_words;

// The plan's numbers and the result, into outputs that are all 0; 23 and all 0 if the numbers do not fit. Linear in the steps.
pub fn give_plan(
    numbers: &[u16],
    plan: CheapestPlan,
    out: &mut [u8],
    res: &mut [u8],
) -> Result<(), Refusal>
    requires clear { Clear out.old res.old }
    requires room { (plan.steps ≤ 1023) × (plan.steps ≤ length numbers.now) × (12 ≤ length res.old) }
    ensures { PlanEntryGives (plan_picked (plan_of (take plan.steps numbers.now) plan.cost) (length out.old) (length res.old)) (told result) out.new res.new }
{
    let count = plan.steps as usize;
    if out.len() / 2 < count {
        return Err(Refusal::LongPlan);
    }
    put_words(out, 0, &numbers[..count]);
    let to_cost = put_bytes(res, 0, &plan.steps.to_le_bytes());
    put_bytes(res, to_cost, &plan.cost.to_le_bytes());
    Ok(())
}
