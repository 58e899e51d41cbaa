// Whether tables are long enough for their counts.
ghost use Rattle.std.specs.Prelude.{◌≡◌};
ghost use Rattle.task.specs.Lending.{lent_tables, table_lengths};
ghost use Rattle.task.specs.Check.{long_enough, room};

use crate::Head;
use crate::operator_rows::OPERATOR_WORDS;
use crate::tables::{Lengths, Tables};

// Whether tables of these lengths hold what the head counts. Constant time, as is the one below.
#[tactic(auto, unfolding(crate::specs::Check::room))]
pub fn has_room(lengths: Lengths, head: Head) -> bool
    ensures { result ≡ room (table_lengths lengths) head }
{
    head.variables as usize <= lengths.initial
        && head.twins as usize <= lengths.twins
        && 3 * (head.formulas as usize) <= lengths.formulas
        && 3 * (head.effects as usize) <= lengths.effects
        && OPERATOR_WORDS * (head.operators as usize) <= lengths.operators
}

// Only the lengths are looked at.
#[tactic(auto, unfolding(crate::specs::Check::long_enough))]
pub fn long_enough(tables: &Tables<'_>) -> bool
    ensures { result ≡ long_enough (lent_tables tables.now) }
{
    has_room(tables.lengths(), tables.head)
}
