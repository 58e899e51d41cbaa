// The refusals that are known before anything is built.
ghost use Rattle.task.specs.Lending.{lent_tables};
ghost use Rattle.task.specs.Refused.{told};
ghost use Rattle.compiler.specs.Inner.Sizes.{room_by};
ghost use Rattle.compiler.specs.Inner.Numbers.{Numbered};

use crate::Lengths;
use task::check::check;
use task::operator_rows::OPERATOR_WORDS;
use task::refusal::Refusal;
use task::tables::Tables;

// The first in order: the tables' own, for twins, for short scratch, for no room for what every finished task has of its source: initial
// values, operators, the empty effect. Costs the check of the tables.
pub fn first_number(source: &Tables<'_>, lengths: Lengths) -> Result<(), Refusal>
    ensures { Numbered (lent_tables source.now) (room_by lengths) (told result) }
{
    check(source)?;
    let head = source.head;
    if head.twins != 0 {
        return Err(Refusal::SourceTwins);
    }
    if lengths.scratch < 2 * (head.formulas as usize) + 2 * (head.effects as usize) {
        return Err(Refusal::ShortScratch);
    }
    if lengths.values < head.variables as usize
        || lengths.written < OPERATOR_WORDS * (head.operators as usize)
        || lengths.out < 3
    {
        return Err(Refusal::NoRoom);
    }
    Ok(())
}
