// Rows of any of the three tables of rows: their words, in order. Constant time, each.
ghost use Rattle.std.specs.Prelude.{◌+◌, ◌*◌, ◌≤◌, ◌≡◌, length};
ghost use Rattle.task.specs.Lending.{operator_of};
ghost use Rattle.task.specs.Inner.Tables.{width, words_at, row_stored, words_operator, operator_words_row};

use crate::operator_rows::{OperatorRecord, operator_at, store_operator};
use crate::{Table, TableRow};

impl From<TableRow> for OperatorRecord {
    ghost from_gives = { λ row operator. operator_of operator ≡ words_operator row };

    fn from(row: TableRow) -> OperatorRecord {
        OperatorRecord {
            precondition: row.first,
            effect: row.second,
            cost: row.third,
            percent: row.fourth,
        }
    }
}

impl From<OperatorRecord> for TableRow {
    ghost from_gives = { λ operator row. row ≡ operator_words_row (operator_of operator) };

    fn from(operator: OperatorRecord) -> TableRow {
        TableRow {
            first: operator.precondition,
            second: operator.effect,
            third: operator.cost,
            fourth: operator.percent,
        }
    }
}

// A formula's or an effect's row.
#[tactic(auto, unfolding(crate::specs::Table::row_at))]
fn three_at(words: &[u16], i: usize) -> TableRow
    requires { 3 * i + 3 ≤ length words.now }
    ensures { result ≡ words_at Table.Formulas words.now i }
{
    let k = 3 * i;
    TableRow {
        first: words[k],
        second: words[k + 1],
        third: words[k + 2],
        fourth: 0,
    }
}

// Row i.
pub fn row_at(table: Table, words: &[u16], i: usize) -> TableRow
    requires { width table * i + width table ≤ length words.now }
    ensures { result ≡ words_at table words.now i }
{
    match table {
        Table::Formulas => three_at(words, i),
        Table::Effects => three_at(words, i),
        Table::Operators => operator_at(words, i).into(),
    }
}

// Stores a formula's or an effect's row.
fn store_three(words: &mut [u16], i: usize, row: TableRow)
    requires { 3 * i + 3 ≤ length words.old }
    ensures { words.new ≡ row_stored Table.Formulas words.old i row }
{
    let k = 3 * i;
    words[k] = row.first;
    words[k + 1] = row.second;
    words[k + 2] = row.third;
}

// Stores row i.
pub fn store_row(table: Table, words: &mut [u16], i: usize, row: TableRow)
    requires { width table * i + width table ≤ length words.old }
    ensures { words.new ≡ row_stored table words.old i row }
{
    match table {
        Table::Formulas => store_three(words, i, row),
        Table::Effects => store_three(words, i, row),
        Table::Operators => store_operator(words, i, row.into()),
    }
}
