// The part of a table that a row is, and the rule that a row keeps.
ghost use Rattle.std.specs.Prelude.{◌≤◌, ◌≡◌};
ghost use Rattle.task.specs.Table.{part as row-words-part, row_part, operator_part, formula_kind, effect_kind};
ghost use Rattle.task.specs.Check.{formula_words_kept, effect_words_kept, operator_kept, operator_number};
ghost use Rattle.task.specs.Lending.{operator_of};
ghost use Rattle.task.specs.Refused.{told};

use crate::MOST_PERCENT;
use crate::kinds::{EffectKind, FormulaKind};
use crate::operator_rows::{OPERATOR_WORDS, OperatorRecord};
use crate::refusal::Refusal;

// Row `number` of a table of rows so wide, as that part of the table, or the empty part where the table does not hold all of it. Constant time, as
// are the two below; nothing is copied.
fn part(table: &[u16], width: usize, number: usize) -> &[u16]
    requires { 1 ≤ width }
    ensures { result.now ≡ row-words-part width table.now number }
{
    if number < table.len() / width {
        let start = width * number;
        let end = start + width;
        &table[start..end]
    } else {
        &table[0..0]
    }
}

// A formula's or an effect's row on request. Every number is fine.
pub fn row(table: &[u16], number: usize) -> &[u16]
    ensures { result.now ≡ row_part table.now number }
{
    part(table, 3, number)
}

// An operator's row on request. Every number is fine.
pub fn operator_row(table: &[u16], number: usize) -> &[u16]
    ensures { result.now ≡ operator_part table.now number }
{
    part(table, OPERATOR_WORDS, number)
}

// Whether the words of formula row i are right. Constant time, as all below. The limits of both words are chosen by `if`: one arm for each kind becomes a
// jump table, which is mispredicted where kinds change from row to row: the check of the largest tables took 45 us with it, and takes 20.
#[tactic(auto, unfolding(crate::specs::Check::formula_words_kept, crate::specs::Table::formula_kind))]
pub fn formula_kept(variables: usize, i: usize, kind: u16, a: u16, b: u16) -> bool
    ensures { result ≡ formula_words_kept variables i (formula_kind kind) a b }
{
    let first = a as usize;
    let second = b as usize;
    let Ok(kind) = FormulaKind::try_from(kind) else {
        return false;
    };
    let (first_limit, second_limit) = if kind == FormulaKind::Variable {
        (variables, 1)
    } else if kind == FormulaKind::Not {
        (i, 1)
    } else if matches!(kind, FormulaKind::False | FormulaKind::True) {
        (1, 1)
    } else {
        (i, i)
    };
    first < first_limit && second < second_limit
}

// Whether the words of effect row i are right. The limits are chosen in the same way.
#[tactic(auto, unfolding(crate::specs::Check::effect_words_kept, crate::specs::Table::effect_kind))]
pub fn effect_kept(variables: usize, formulas: usize, i: usize, kind: u16, a: u16, b: u16) -> bool
    ensures { result ≡ effect_words_kept variables formulas i (effect_kind kind) a b }
{
    let first = a as usize;
    let second = b as usize;
    let Ok(kind) = EffectKind::try_from(kind) else {
        return false;
    };
    let (first_limit, second_limit) = if kind == EffectKind::Both {
        (i, i)
    } else if kind == EffectKind::Under {
        (formulas, i)
    } else if kind == EffectKind::Empty {
        (1, 1)
    } else {
        (variables, 1)
    };
    first < first_limit && second < second_limit
}

// Whether an operator's precondition and effect are rows of their tables.
#[tactic(auto, unfolding(crate::specs::Check::operator_kept))]
fn operator_kept(formulas: usize, effects: usize, row: OperatorRecord) -> bool
    ensures { result ≡ operator_kept formulas effects (operator_of row) }
{
    (row.precondition as usize) < formulas && (row.effect as usize) < effects
}

// The rules of an operator's row: its parts, then its percent.
#[tactic(auto, unfolding(crate::specs::Check::operator_number, crate::specs::Check::percent_kept))]
pub fn check_operator(formulas: usize, effects: usize, row: OperatorRecord) -> Result<(), Refusal>
    ensures { told result ≡ operator_number formulas effects (operator_of row) }
{
    if !operator_kept(formulas, effects, row) {
        return Err(Refusal::Operator);
    }
    if MOST_PERCENT < row.percent {
        return Err(Refusal::Percent);
    }
    Ok(())
}
