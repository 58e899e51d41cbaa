// The rules of rows: 10 and 26 of formulas, 11 and 26 of effects, 12 and 24 of operators.
ghost use Rattle.std.specs.Prelude.{◌*◌, ◌≤◌, ◌≡◌, length};
ghost use Rattle.task.specs.Bounded.{first_number};
ghost use Rattle.task.specs.Refused.{told};
ghost use Rattle.task.specs.Inner.Tables.{width};
ghost use Rattle.finite_domain.specs.Check.{finite_formula_number, finite_effect_number};
ghost use Rattle.finite_domain.specs.Inner.Tables.{named_row, finite_words_number, finite_row_number};

use crate::FiniteTables;
use crate::values::check_value;
use task::check::refuse_unless;
use task::kinds::{EffectKind, FormulaKind};
use task::refusal::Refusal;
use task::rows::{check_operator, effect_kept, formula_kept};
use task::table_rows::row_at;
use task::{Table, TableRow};

// The kind of the formula "variable a has value b", and that of 01 which it replaces.
const HAS_VALUE: u16 = 8;

const IS_TRUE: u16 = FormulaKind::Variable as u16;

// The kind of the effect "variable a becomes value b", and those of 01 which it replaces.
const BECOMES_VALUE: u16 = 5;

const BECOMES_TRUE: u16 = EffectKind::Set as u16;

const BECOMES_FALSE: u16 = EffectKind::Clear as u16;

// The rule of formula row i. Constant time, as are the two below.
#[tactic(auto, using(crate::proofs::Ways::formula_leaf, crate::proofs::Ways::formula_no_leaf, crate::proofs::Ways::formula_other))]
fn check_formula(tables: &FiniteTables<'_>, i: usize, row: TableRow) -> Result<(), Refusal>
    requires { tables.now.head.variables ≤ length tables.now.counts.now }
    ensures { told result ≡ finite_formula_number tables.now.counts.now tables.now.head.variables i (named_row row) }
{
    let variables = tables.head.variables as usize;
    match row.first {
        HAS_VALUE => check_value(tables, row.second, row.third, Refusal::Formula),
        IS_TRUE => Err(Refusal::Formula),
        _ => refuse_unless(
            formula_kept(variables, i, row.first, row.second, row.third),
            Refusal::Formula,
        ),
    }
}

// The rule of effect row i.
#[tactic(auto, using(crate::proofs::Ways::effect_leaf, crate::proofs::Ways::effect_no_atom, crate::proofs::Ways::effect_other))]
fn check_effect(tables: &FiniteTables<'_>, i: usize, row: TableRow) -> Result<(), Refusal>
    requires { tables.now.head.variables ≤ length tables.now.counts.now }
    ensures { told result ≡ finite_effect_number tables.now.counts.now tables.now.head.variables tables.now.head.formulas i (named_row row) }
{
    let variables = tables.head.variables as usize;
    let formulas = tables.head.formulas as usize;
    match row.first {
        BECOMES_VALUE => check_value(tables, row.second, row.third, Refusal::Effect),
        BECOMES_TRUE | BECOMES_FALSE => Err(Refusal::Effect),
        _ => refuse_unless(
            effect_kept(variables, formulas, i, row.first, row.second, row.third),
            Refusal::Effect,
        ),
    }
}

// The rule of row i of a table.
fn check_row(
    table: Table,
    tables: &FiniteTables<'_>,
    i: usize,
    row: TableRow,
) -> Result<(), Refusal>
    requires { tables.now.head.variables ≤ length tables.now.counts.now }
    ensures { told result ≡ finite_words_number table tables.now.head tables.now.counts.now i row }
{
    let head = tables.head;
    match table {
        Table::Formulas => check_formula(tables, i, row),
        Table::Effects => check_effect(tables, i, row),
        Table::Operators => check_operator(
            head.formulas as usize,
            head.effects as usize,
            row.into(),
        ),
    }
}

// The rules of the first `count` rows of a table, upwards. Linear.
pub fn check_rows(
    table: Table,
    tables: &FiniteTables<'_>,
    words: &[u16],
    count: usize,
) -> Result<(), Refusal>
    requires { (tables.now.head.variables ≤ length tables.now.counts.now) × (width table * count ≤ length words.now) }
    ensures { told result ≡ first_number count (finite_row_number table tables.now.head tables.now.counts.now words.now) }
{
    for i in 0..count {
        let row = row_at(table, words, i);
        check_row(table, tables, i, row)?;
    }
    Ok(())
}
