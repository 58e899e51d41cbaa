// D and N of one variable.
ghost use Rattle.std.specs.Prelude.{◌≡◌};
ghost use Rattle.conditions.specs.Inner.Conditions.{Conditioned};
ghost use Rattle.variable_changes.specs.Inner.Stands.{Deletes, deletes_by};

use conditions::{ConditionBuilder, Target};
use formula_builder::NoRoom;

// D, freed of conflict with A: if neither is row 0, D and N, with N the negated condition of set v.
pub fn deletes(
    b: &mut ConditionBuilder<'_, '_, '_, '_>,
    e: usize,
    v: u16,
    adds: u16,
    deletes: u16,
) -> Result<u16, NoRoom>
    requires { Deletes b.old e v deletes }
    ensures { Conditioned (deletes_by b.old e v adds deletes) b.old b.new result }
{
    if adds == 0 || deletes == 0 {
        return Ok(deletes);
    }
    let t = Target {
        clear: false,
        variable: v,
        negated: true,
    };
    let n = b.condition(e, t)?;
    b.images.builder.join(false, deletes, n)
}
