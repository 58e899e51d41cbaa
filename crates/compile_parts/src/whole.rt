// All that is built: the formulas of the operators and of the goal, and the twins.
ghost use Rattle.formula_builder.specs.Inner.Held.{store_in, step_by};
ghost use Rattle.conditions.specs.Inner.Conditions.{SameConditions};
ghost use Rattle.building.specs.Inner.Taken.{FromStart};
ghost use Rattle.compile_parts.specs.Inner.Builds.{BuildsBy};

use crate::Counts;
use crate::batch::take_batch;
use atom_sets::find_sets;
use building::begin;
use conditions::ConditionBuilder;
use effect_batches::{MOST_ROWS, find_first};
use formula_builder::NoRoom;

// Notes sets of atoms, finds the first operator that comes to each effect row, then begins, takes the operators in order, batch by batch, and the
// goal. Rows are built in a table of their own, which has their index; the changes of each operator are recorded for its rules. What is left in
// notes is left open. Answers the goal's row. Costs two passes over the effects, one of them with two bits a variable, one over the operators, 8 KiB, cleared, and what
// its parts do: one walk over every operator, and what each batch costs.
pub fn build(
    b: &mut ConditionBuilder<'_, '_, '_, '_>,
    counts: Counts,
    operators: &[u16],
    records: &mut [u16],
) -> Result<u16, NoRoom>
    requires { BuildsBy b.old counts.operators counts.goal operators.now records.old }
    ensures from_start { FromStart b.old.images.builder.frame b.old.images.formulas.now b.old.effects.now operators.now counts.operators counts.goal (store_in b.new.images.builder) b.new.images.scratch.now records.new (step_by b.new.images.builder result) }
    ensures same { SameConditions b.old b.new }
{
    let effects = b.effects;
    let frame = b.images.builder.frame;
    let count = counts.operators;
    find_sets(effects, frame, b.notes);
    let mut first = [0u16; MOST_ROWS];
    find_first(effects, operators, count, frame, &mut first);
    let mut at = begin(&mut b.images.builder)?;
    while at.operators < count {
        at = take_batch(b, operators, count, &first, at, records)?;
    }
    b.images.image(counts.goal)
}
