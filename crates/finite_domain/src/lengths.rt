// Whether lent tables are long enough for their counts: 5.
ghost use Rattle.std.specs.Prelude.{◌≡◌};
ghost use Rattle.finite_domain.specs.Lending.{lent_finite};
ghost use Rattle.finite_domain.specs.Check.{finite_long_enough};

use crate::FiniteTables;
use task::operator_rows::OPERATOR_WORDS;

// Constant time: only the lengths are looked at.
#[tactic(auto, unfolding(crate::specs::Check::finite_long_enough))]
pub fn finite_long_enough(tables: &FiniteTables<'_>) -> bool
    ensures { result ≡ finite_long_enough (lent_finite tables.now) }
{
    let head = tables.head;
    head.variables as usize <= tables.counts.len()
        && head.variables as usize <= tables.initial.len()
        && 3 * (head.formulas as usize) <= tables.formulas.len()
        && 3 * (head.effects as usize) <= tables.effects.len()
        && OPERATOR_WORDS * (head.operators as usize) <= tables.operators.len()
}
