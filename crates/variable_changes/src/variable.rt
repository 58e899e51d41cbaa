// A, D and N of one variable.
ghost use Rattle.std.specs.Prelude.{◌<◌};
ghost use Rattle.formula_builder.specs.Inner.Held.{full_by};
ghost use Rattle.conditions.specs.Inner.Conditions.{SameConditions};
ghost use Rattle.variable_changes.specs.Inner.Stands.{StandsBy, MakesBy, LeavesBy, changes_by, made};

use crate::Change;
use crate::conflict::deletes;
use conditions::{ConditionBuilder, Target};
use formula_builder::NoRoom;

// What effect e does to variable v: all of A, then all of D, then N.
pub fn change_of(
    b: &mut ConditionBuilder<'_, '_, '_, '_>,
    e: usize,
    v: u16,
) -> Result<Change, NoRoom>
    requires { StandsBy b.old e × (v < b.old.images.builder.frame.variables) }
    ensures makes { MakesBy (changes_by b.old e v) b.old b.new (full_by result) (made v result) }
    ensures leaves { LeavesBy b.old b.new (full_by result) }
    ensures same { SameConditions b.old b.new }
{
    let set = Target {
        clear: false,
        variable: v,
        negated: false,
    };
    let a = b.condition_if(e, set)?;
    let unset = Target {
        clear: true,
        variable: v,
        negated: false,
    };
    let d = b.condition_if(e, unset)?;
    let k = deletes(b, e, v, a, d)?;
    Ok(Change {
        adds: a,
        deletes: k,
    })
}
