// The check of lent tables: the scope's first refusal in order, or none.
ghost use Rattle.std.specs.Prelude.{ℕ, ◌*◌, ◌≤◌, ◌≡◌, length, get_or, leb};
ghost use Rattle.task.specs.Bounded.{every, first_number};
ghost use Rattle.task.specs.Check.{twin_kept, unless, refusal};
ghost use Rattle.task.specs.Lending.{lent_tables};
ghost use Rattle.task.specs.Refused.{number_of, told};
ghost use Rattle.task.specs.Inner.Tables.{width, words_number, row_number};

use crate::counts::{counts_kept, goal_kept};
use crate::lengths::long_enough;
use crate::refusal::Refusal;
use crate::rows::{check_operator, effect_kept, formula_kept};
use crate::table_rows::row_at;
use crate::tables::Tables;
use crate::{Head, Table, TableRow};

// Whether every byte is 0 or 1. Linear.
pub fn bits(bytes: &[u8]) -> bool
    ensures { result ≡ every (length bytes.now) (λ v. leb (get_or bytes.now v 0) 1) }
{
    bytes.iter().all(|byte| *byte <= 1)
}

// Whether each of these twin rows names a variable below `bound` that no row before it names. Linear: a byte for each variable tells
// whether a row has named it.
fn twins_kept(twins: &[u16], bound: usize) -> bool
    requires { bound ≤ 512 }
    ensures { result ≡ every (length twins.now) (twin_kept bound twins.now) }
{
    let mut named = [0u8; 512];
    for twin in twins {
        let original = *twin as usize;
        if bound <= original {
            return false;
        }
        if named[original] != 0 {
            return false;
        }
        named[original] = 1;
    }
    true
}

// Refused, unless the rule is kept. Constant time.
pub fn refuse_unless(kept: bool, refusal: Refusal) -> Result<(), Refusal>
    ensures { told result ≡ unless kept (number_of refusal) 0 }
{
    if kept { Ok(()) } else { Err(refusal) }
}

// The rule of row i of a table. Constant time.
#[tactic(auto, unfolding(crate::specs::Check::formula_kept, crate::specs::Check::effect_kept))]
fn check_row(table: Table, head: Head, i: usize, row: TableRow) -> Result<(), Refusal>
    ensures { told result ≡ words_number table head i row }
{
    let variables = head.variables as usize;
    let formulas = head.formulas as usize;
    match table {
        Table::Formulas => refuse_unless(
            formula_kept(variables, i, row.first, row.second, row.third),
            Refusal::Formula,
        ),
        Table::Effects => refuse_unless(
            effect_kept(variables, formulas, i, row.first, row.second, row.third),
            Refusal::Effect,
        ),
        Table::Operators => check_operator(formulas, head.effects as usize, row.into()),
    }
}

// The rules of the first `count` rows of a table, upwards. Linear.
fn check_rows(table: Table, head: Head, words: &[u16], count: usize) -> Result<(), Refusal>
    requires { width table * count ≤ length words.now }
    ensures { told result ≡ first_number count (row_number table head words.now) }
{
    for i in 0..count {
        let row = row_at(table, words, i);
        check_row(table, head, i, row)?;
    }
    Ok(())
}

// The first refusal in order: counts, goal, lengths, initial bytes, twins, then row by row formulas, effects, operators. Nothing is written. Linear
// in the counts.
pub fn check(tables: &Tables<'_>) -> Result<(), Refusal>
    ensures { told result ≡ refusal (lent_tables tables.now) }
{
    let head = tables.head;
    if !counts_kept(head) {
        return Err(Refusal::Counts);
    }
    if !goal_kept(head) {
        return Err(Refusal::Goal);
    }
    if !long_enough(tables) {
        return Err(Refusal::ShortTable);
    }
    let variables = head.variables as usize;
    if !bits(&tables.initial[..variables]) {
        return Err(Refusal::InitialByte);
    }
    let twins = head.twins as usize;
    if !twins_kept(&tables.twins[..twins], variables - twins) {
        return Err(Refusal::Twin);
    }
    let formulas = tables.formulas;
    let effects = tables.effects;
    let operators = tables.operators;
    check_rows(Table::Formulas, head, formulas, head.formulas as usize)?;
    check_rows(Table::Effects, head, effects, head.effects as usize)?;
    check_rows(Table::Operators, head, operators, head.operators as usize)
}
