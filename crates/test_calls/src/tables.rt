// The check of tables, and rows on request.
ghost use Rattle.std.specs.Prelude.{◌≡◌, length, get_or};
ghost use Rattle.task.specs.Table.{lent, row_part, operator_part};
ghost use Rattle.task.specs.Check.{refusal};

use crate::buffers;
use task::check::check;
use task::rows::{operator_row, row};

// `task::check::check`, with the head as six numbers.
#[unsafe(no_mangle)]
pub extern "C" fn test_check(
    v: u16,
    w: u16,
    f: u16,
    e: u16,
    o: u16,
    goal: u16,
    initial: &[u8],
    twins: &[u16],
    formulas: &[u16],
    effects: &[u16],
    operators: &[u16],
) -> u16
    ensures { result ≡ refusal (lent (record { variables = v; twins = w; formulas = f; effects = e; operators = o; goal = goal }) initial.now twins.now formulas.now effects.now operators.now) }
{
    buffers::number(check(&buffers::tables(
        v, w, f, e, o, goal, initial, twins, formulas, effects, operators,
    )))
}

// The length of the part of a table that a row is.
#[unsafe(no_mangle)]
pub extern "C" fn test_row_length(table: &[u16], number: usize) -> usize
    ensures { result ≡ length (row_part table.now number) }
{
    row(table, number).len()
}

// The word at a place of that part, 0 outside it.
#[unsafe(no_mangle)]
pub extern "C" fn test_row_word(table: &[u16], number: usize, at: usize) -> u16
    ensures { result ≡ get_or (row_part table.now number) at 0 }
{
    row(table, number).get(at).copied().unwrap_or(0)
}

// The same of an operator's row.
#[unsafe(no_mangle)]
pub extern "C" fn test_operator_row_length(table: &[u16], number: usize) -> usize
    ensures { result ≡ length (operator_part table.now number) }
{
    operator_row(table, number).len()
}

#[unsafe(no_mangle)]
pub extern "C" fn test_operator_row_word(table: &[u16], number: usize, at: usize) -> u16
    ensures { result ≡ get_or (operator_part table.now number) at 0 }
{
    operator_row(table, number).get(at).copied().unwrap_or(0)
}
