// Tables into an output. Linear, each.
ghost use Rattle.std.specs.Prelude.{◌≡◌, ◌+◌, ◌*◌, ◌≤◌, length};
ghost use Rattle.task.specs.Words.{joined};
ghost use Rattle.file_format.specs.Bytes.{number, word_bytes, packed};
ghost use Rattle.task_writer.specs.Inner.Putting.{Put, RowsIn, StateIn, rows_bytes};

use crate::put::{put_byte, put_word};
use crate::put_row::put_row;
use task::Table;
use task::table_rows::row_at;

// The first `count` rows of a table.
pub fn put_rows(out: &mut [u8], at: usize, table: Table, words: &[u16], count: usize) -> usize
    requires { RowsIn table words.now count at }
    ensures { Put (rows_bytes table words.now count) at result out.old out.new }
{
    let mut next = at;
    for i in 0..count {
        let row = row_at(table, words, i);
        next = put_row(out, next, table, row);
    }
    next
}

// Words, plain.
pub fn put_words(out: &mut [u8], at: usize, words: &[u16]) -> usize
    requires { at + 9 * length words.now ≤ 1000000 }
    ensures { Put (joined word_bytes words.now) at result out.old out.new }
{
    let mut next = at;
    for word in words {
        next = put_word(out, next, *word);
    }
    next
}

// At most eight bits as a byte, the first one the lowest.
fn pack(bits: &[u8]) -> u8
    requires { (StateIn bits.now) × (length bits.now ≤ 8) }
    ensures { result ≡ number bits.now }
{
    let mut byte = 0;
    for bit in bits.iter().rev() {
        byte = 2 * byte + *bit;
    }
    byte
}

// A state, packed.
pub fn put_state(out: &mut [u8], at: usize, state: &[u8]) -> usize
    requires { (StateIn state.now) × (at + 9 * length state.now ≤ 1000000) }
    ensures { Put (packed state.now) at result out.old out.new }
{
    let mut next = at;
    for bits in state.chunks(8) {
        next = put_byte(out, next, pack(bits));
    }
    next
}
