// The lines of a task. Each step is linear in the bytes that it puts.
ghost use Rattle.std.specs.Prelude.{◌+◌, ◌*◌, ◌≤◌, ◌≡◌, length};
ghost use Rattle.task.specs.Bounded.{upto};
ghost use Rattle.task.specs.Table.{task_of};
ghost use Rattle.task.specs.Check.{refusal};
ghost use Rattle.task.specs.Lending.{lent_tables};
ghost use Rattle.printing.specs.Lines.{line, numbered, values as values-text, initial_line, lines};
ghost use Rattle.printing.specs.Inner.Put.{Put, listed_at, original_at, front_text, tables_text, BitsReady, TwinsReady, RowsReady, FrontReady, TablesReady};

use crate::bytes::{put, word};
use task::Table;
use task::table_rows::row_at;
use task::tables::Tables;

// A line: its letter and its numbers.
pub fn line(out: &mut [u8], at: usize, letter: u8, numbers: &[u16]) -> usize
    requires { at + (6 * length numbers.now + 2) ≤ 1000000 }
    ensures { Put out.old at (line letter numbers.now) (6 * length numbers.now + 2) out.new result }
{
    let mut next = put(out, at, letter);
    for number in numbers {
        next = word(out, next, *number);
    }
    put(out, next, b'\n')
}

// The initial values behind a blank, a digit each; nothing if there are none.
fn values(out: &mut [u8], at: usize, initial: &[u8]) -> usize
    requires { BitsReady (at + 1) initial.now }
    ensures { Put out.old at (values-text initial.now) (length initial.now + 1) out.new result }
{
    if initial.is_empty() {
        return at;
    }
    let mut next = put(out, at, b' ');
    for value in initial {
        next = put(out, next, b'0' + *value);
    }
    next
}

// Line i.
fn state_line(out: &mut [u8], at: usize, initial: &[u8]) -> usize
    requires { BitsReady (at + 3) initial.now }
    ensures { Put out.old at (initial_line initial.now) (length initial.now + 3) out.new result }
{
    let next = put(out, at, b'i');
    let end = values(out, next, initial);
    put(out, end, b'\n')
}

// Lines w, for the twins from variable `first` on.
fn twin_lines(out: &mut [u8], at: usize, first: u16, twins: &[u16]) -> usize
    requires { TwinsReady at first twins.now }
    ensures { Put out.old at (numbered 119 first (upto (length twins.now) (original_at twins.now))) (14 * length twins.now) out.new result }
{
    let mut next = at;
    for (k, original) in twins.iter().enumerate() {
        next = line(out, next, b'w', &[first + k as u16, *original]);
    }
    next
}

// Lines f, e or o: the rows of a table, by its letter.
fn row_lines(
    out: &mut [u8],
    at: usize,
    letter: u8,
    table: Table,
    words: &[u16],
    count: usize,
) -> usize
    requires { RowsReady table at count words.now }
    ensures { Put out.old at (numbered letter 0 (upto count (listed_at table words.now))) (32 * count) out.new result }
{
    let mut next = at;
    for i in 0..count {
        let row = row_at(table, words, i);
        let n = i as u16;
        next = match table {
            Table::Formulas | Table::Effects => {
                line(out, next, letter, &[n, row.first, row.second, row.third])
            }
            Table::Operators => line(
                out,
                next,
                letter,
                &[n, row.first, row.second, row.third, row.fourth],
            ),
        };
    }
    next
}

// Lines t, i and w.
fn front(out: &mut [u8], tables: &Tables<'_>) -> usize
    requires { FrontReady tables.now.head tables.now.initial.now tables.now.twins.now }
    ensures { Put out.old 0 (front_text tables.now.head tables.now.initial.now tables.now.twins.now) 5000 out.new result }
{
    let head = tables.head;
    let counts = [
        head.variables,
        head.twins,
        head.formulas,
        head.effects,
        head.operators,
        head.goal,
    ];
    let after_head = line(out, 0, b't', &counts);
    let after_state = state_line(out, after_head, &tables.initial[..head.variables as usize]);
    twin_lines(
        out,
        after_state,
        head.variables - head.twins,
        &tables.twins[..head.twins as usize],
    )
}

// Lines f, e and o.
fn row_tables(out: &mut [u8], at: usize, tables: &Tables<'_>) -> usize
    requires { TablesReady at tables.now.head tables.now.formulas.now tables.now.effects.now tables.now.operators.now }
    ensures { Put out.old at (tables_text tables.now.head tables.now.formulas.now tables.now.effects.now tables.now.operators.now) 271000 out.new result }
{
    let head = tables.head;
    let after_formulas = row_lines(
        out,
        at,
        b'f',
        Table::Formulas,
        tables.formulas,
        head.formulas as usize,
    );
    let after_effects = row_lines(
        out,
        after_formulas,
        b'e',
        Table::Effects,
        tables.effects,
        head.effects as usize,
    );
    row_lines(
        out,
        after_effects,
        b'o',
        Table::Operators,
        tables.operators,
        head.operators as usize,
    )
}

// All lines of tables that pass the check.
pub fn task_lines(out: &mut [u8], tables: &Tables<'_>) -> usize
    requires { refusal (lent_tables tables.now) ≡ 0 }
    ensures { Put out.old 0 (lines (task_of (lent_tables tables.now))) 276000 out.new result }
{
    let next = front(out, tables);
    row_tables(out, next, tables)
}
