// One operator.
ghost use Rattle.formula_builder.specs.Inner.Held.{full_by};
ghost use Rattle.conditions.specs.Inner.Conditions.{SameConditions};
ghost use Rattle.variable_changes.specs.Inner.Stands.{LeavesBy};
ghost use Rattle.change_records.specs.Inner.Recorded.{Opens};
ghost use Rattle.operators.specs.Inner.Operator.{BuildsBy, OperatorWalkedBy, tally_of};

use crate::Tally;
use crate::walk::build_changes;
use conditions::ConditionBuilder;
use formula_builder::NoRoom;

// Builds the operator with precondition p and effect e, and records its changes behind those that are.
pub fn build_operator(
    b: &mut ConditionBuilder<'_, '_, '_, '_>,
    p: usize,
    e: usize,
    from: usize,
    records: &mut [u16],
) -> Result<Tally, NoRoom>
    requires { BuildsBy b.old p e × Opens from records.old }
    ensures walked { OperatorWalkedBy b.old b.new p e from records.old records.new (tally_of b.new result) }
    ensures leaves { LeavesBy b.old b.new (full_by result) }
    ensures same { SameConditions b.old b.new }
{
    let row = b.images.image(p)?;
    let k = build_changes(b, e, from, records)?;
    Ok(Tally { row, records: k })
}
