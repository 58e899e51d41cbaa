// The beginning of a batch: how many operators it has, which rows have a column, and which of these are to be filled.
ghost use Rattle.std.specs.Prelude.{◌≡◌, true, ℕ, ◌≤◌, ◌<◌};
ghost use Rattle.effect_batches.specs.Inner.Numbers.{Sizes, Sized, Forgets, Forgot, ListsRow, ListedRow, Lists, Listed, BeginsBatch, BeganBatch};

use crate::number::number_batch;
use crate::{Batch, MOST_ROWS};
use atom_sets::sets_end;
use conditions::width_of;
use formula_builder::Frame;

// How many columns so many words have room for; no row has column 0, so its place is lost. Nothing is promised of it.
fn most_columns(variables: usize, room: usize) -> usize {
    if variables == 0 {
        return MOST_ROWS;
    }
    (room / width_of(variables) / variables).saturating_sub(1)
}

// All operators from one on to the last, else half as many, and so on, until there is room for their columns, or one is left: these are given.
// Answers how many operators. At most nine times the passes of number_batch.
fn size_batch(
    effects: &[u16],
    operators: &[u16],
    from: usize,
    count: usize,
    most: usize,
    first: &[u16],
    frame: Frame,
    notes: &mut [u16],
) -> usize
    requires { Sizes frame effects.now operators.now first.now notes.old from count }
    ensures { Sized frame.effects from count notes.old notes.new result }
{
    let mut size = count - from;
    let mut columns = number_batch(effects, operators, from, size, first, frame, notes);
    while 2 <= size && most < columns as usize {
        size /= 2;
        columns = number_batch(effects, operators, from, size, first, frame, notes);
    }
    size
}

// Nothing is kept any more behind the sets, which end at word k. Before the first batch nothing is. Linear.
fn forget(from: usize, k: usize, notes: &mut [u16])
    requires { Forgets from k notes.old }
    ensures { Forgot k notes.old notes.new }
{
    if from != 0 {
        notes[k..].fill(0);
    }
}

// Row e is listed behind k rows if it has one of the columns that there is room for, and an operator before operator `from` came to it. Answers
// how many are listed.
fn list_row(
    first: &[u16],
    e: usize,
    from: usize,
    most: usize,
    notes: &[u16],
    k: usize,
    list: &mut [u16],
) -> usize
    requires { ListsRow first.now notes.now e k list.old }
    ensures { (n : ℕ) → e < n → ListedRow n first.now from k list.old list.new result }
{
    let w = first[e];
    let column = notes[e];
    if w == 0 || from < w as usize || column == 0 || most < column as usize {
        return k;
    }
    list[k] = e as u16;
    k + 1
}

// The rows that are to be filled. As many steps as there are effects.
fn list_rows(
    first: &[u16],
    from: usize,
    most: usize,
    rows: usize,
    notes: &[u16],
    list: &mut [u16],
) -> usize
    requires { Lists rows first.now notes.now list.old }
    ensures { Listed rows first.now from list.new result }
{
    let mut k = 0;
    for e in 0..rows {
        k = list_row(first, e, from, most, notes, k, list);
    }
    k
}

// The batch that begins with operator `from`: its end, and the list of the rows that are to be filled. It has as many operators as there is
// room for the columns of; a single one with more walks rows without a column by its memo alone.
pub fn begin_batch(
    effects: &[u16],
    operators: &[u16],
    from: usize,
    count: usize,
    first: &[u16],
    frame: Frame,
    notes: &mut [u16],
    list: &mut [u16],
) -> Batch
    requires { BeginsBatch frame effects.now operators.now from count first.now notes.old list.old }
    ensures { BeganBatch frame effects.now from count first.now notes.old notes.new list.new result }
{
    let k = sets_end(frame);
    let most = most_columns(frame.variables, notes.len() - k);
    let size = size_batch(effects, operators, from, count, most, first, frame, notes);
    forget(from, k, notes);
    let rows = list_rows(first, from, most, frame.effects, notes, list);
    Batch {
        end: from + size,
        rows,
    }
}
