// The parts: each is handed the progress by value and answers it further on.
ghost use Rattle.std.specs.Prelude.{◌≡◌, ◌+◌};
ghost use Rattle.formula_builder.specs.Inner.Held.{Same, full_by};
ghost use Rattle.conditions.specs.Inner.Conditions.{SameConditions};
ghost use Rattle.variable_changes.specs.Inner.Stands.{LeavesBy};
ghost use Rattle.building.specs.Inner.Taken.{Fresh, Begun, TakesBy, TookBy, progress_by};

use crate::Progress;
use conditions::ConditionBuilder;
use formula_builder::{Builder, NoRoom, first_rows};
use operators::build_operator;
use rule_writer::store;
use task::operator_rows::operator_at;

// False and true, in a table that is all 0. Constant cost.
pub fn begin(b: &mut Builder<'_>) -> Result<Progress, NoRoom>
    requires { Fresh b.old.frame b.old.table.now }
    ensures begun { Begun b.old.frame b.old.table.now b.new.table.now (progress_by b.new 0 result) }
    ensures same { Same b.old b.new }
    ensures originals { b.new.originals.now ≡ b.old.originals.now }
{
    let most = b.frame.rows;
    if most < 2 {
        return Err(NoRoom);
    }
    first_rows(b.table, most);
    b.rows = 2;
    b.twins = 0;
    Ok(Progress {
        operators: 0,
        records: 0,
    })
}

// The next operator: its precondition, then what it does to each variable that it touches, which is recorded for the rules. Costs what
// build_operator does: a walk over the effect for each atom that it names, not below rows whose condition is kept, and the index finds each row.
pub fn take_operator(
    b: &mut ConditionBuilder<'_, '_, '_, '_>,
    operators: &[u16],
    at: Progress,
    records: &mut [u16],
) -> Result<Progress, NoRoom>
    requires { TakesBy b.old operators.now records.old at }
    ensures took { TookBy b.old b.new operators.now records.new at (progress_by b.new.images.builder (at.operators + 1) result) }
    ensures leaves { LeavesBy b.old b.new (full_by result) }
    ensures same { SameConditions b.old b.new }
{
    let operator = operator_at(operators, at.operators);
    let precondition = operator.precondition as usize;
    let effect = operator.effect as usize;
    let built = build_operator(b, precondition, effect, at.records, records)?;
    if 2048 < built.records {
        return Err(NoRoom);
    }
    store(records, at.operators, built.row, built.records as u16, 0);
    Ok(Progress {
        operators: at.operators + 1,
        records: built.records,
    })
}
