// The operator of a step: it is looked up, tested and carried out.
ghost use Rattle.std.specs.Prelude.{◌*◌, ◌≤◌, ◌≡◌, length};
ghost use Rattle.task.specs.Check.{unless};
ghost use Rattle.task.specs.Lending.{lent_tables, operator_of};
ghost use Rattle.task.specs.Refused.{told};
ghost use Rattle.task.specs.Run.{operator_of as operator_of_task};
ghost use Rattle.task.specs.Table.{operator_width, task_of};
ghost use Rattle.operator_step.specs.Inner.Steps.{Ready, Takes, taken_answered, Scratched};

use task::operator_rows::{OperatorRecord, operator_at};
use task::refusal::Refusal;
use task::tables::Tables;

// Operator `number`, or one of zeros if it is not there. Constant time.
fn asked(tables: &Tables<'_>, number: u16) -> OperatorRecord
    requires { operator_width * tables.now.head.operators ≤ length tables.now.operators.now }
    ensures { operator_of result ≡ operator_of_task (task_of (lent_tables tables.now)) number }
{
    if tables.head.operators <= number {
        return OperatorRecord {
            precondition: 0,
            effect: 0,
            cost: 0,
            percent: 0,
        };
    }
    operator_at(tables.operators, number as usize)
}

// What stops a step: that the operator is not there comes first. Constant time.
fn stop_of(there: bool, applicable: bool) -> Result<(), Refusal>
    ensures { told result ≡ unless there 17 (unless applicable 18 0) }
{
    if !there {
        return Err(Refusal::NoOperator);
    }
    if !applicable {
        return Err(Refusal::NotApplicable);
    }
    Ok(())
}

// Operator `number` is carried out if it is there and applicable; what it is charged is told. Linear in the formulas and the effects: each formula
// is evaluated once, and those behind the precondition only if nothing stops the step.
pub fn take(
    tables: &Tables<'_>,
    state: &mut [u8],
    number: u16,
    scratch: &mut [u8],
) -> Result<u32, Refusal>
    requires { Ready (lent_tables tables.now) state.old scratch.old }
    ensures takes { Takes (task_of (lent_tables tables.now)) state.old number (taken_answered result) state.new }
    ensures scratched { Scratched (lent_tables tables.now) state.old number (taken_answered result) scratch.old scratch.new }
{
    let head = tables.head;
    let operator = asked(tables, number);
    let precondition = operator.precondition as usize;
    let applicable = evaluating::holds(tables.formulas, precondition, state, scratch);
    stop_of(number < head.operators, applicable)?;
    applying::carry_out(
        tables.formulas,
        precondition + 1,
        head.formulas as usize,
        tables.effects,
        operator.effect as usize,
        state,
        scratch,
    );
    Ok(operator.charge())
}
