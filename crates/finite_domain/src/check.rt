// The check of lent finite-domain tables: the first refusal in order, or none.
ghost use Rattle.std.specs.Prelude.{◌≡◌};
ghost use Rattle.task.specs.Refused.{told};
ghost use Rattle.finite_domain.specs.Lending.{lent_finite};
ghost use Rattle.finite_domain.specs.Check.{finite_refusal};

use crate::FiniteTables;
use crate::counts::finite_counts_kept;
use crate::lengths::finite_long_enough;
use crate::rows::check_rows;
use crate::values::{initial_values_kept, value_counts_kept};
use task::Table;
use task::counts::goal_kept;
use task::refusal::Refusal;

// The first refusal in order: 6, 7, 5, 25, 26, and row by row 10 and 26, 11 and 26, 12 and 24. Nothing is written. Linear in the counts.
pub fn check(tables: &FiniteTables<'_>) -> Result<(), Refusal>
    ensures { told result ≡ finite_refusal (lent_finite tables.now) }
{
    let head = tables.head;
    if !finite_counts_kept(head) {
        return Err(Refusal::Counts);
    }
    if !goal_kept(head) {
        return Err(Refusal::Goal);
    }
    if !finite_long_enough(tables) {
        return Err(Refusal::ShortTable);
    }
    let variables = head.variables as usize;
    let counts = &tables.counts[..variables];
    if !value_counts_kept(counts) {
        return Err(Refusal::ValueCount);
    }
    if !initial_values_kept(counts, &tables.initial[..variables]) {
        return Err(Refusal::Value);
    }
    check_rows(
        Table::Formulas,
        tables,
        tables.formulas,
        head.formulas as usize,
    )?;
    check_rows(
        Table::Effects,
        tables,
        tables.effects,
        head.effects as usize,
    )?;
    check_rows(
        Table::Operators,
        tables,
        tables.operators,
        head.operators as usize,
    )
}
