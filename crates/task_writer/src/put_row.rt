// A row's bytes, and the head's, into an output. Constant time, each.
ghost use Rattle.std.specs.Prelude.{◌≤◌};
ghost use Rattle.file_format.specs.Bytes.{head_bytes};
ghost use Rattle.task_writer.specs.Inner.Putting.{Put, MapFits, bytes_of};

use crate::put::put_mapped;
use task::{DEFAULT_PERCENT, Head, Table, TableRow};

// A row by its words.
#[tactic(auto, unfolding(file_format::specs::Bytes::row_bytes, file_format::specs::Bytes::operator_bytes, task::specs::Words::operator_row_words))]
pub fn put_row(out: &mut [u8], at: usize, table: Table, row: TableRow) -> usize
    requires { (at ≤ 1400000) × (MapFits table row.first) }
    ensures { Put (bytes_of table row) at result out.old out.new }
{
    match table {
        Table::Formulas | Table::Effects => {
            let kind = row.first as u8;
            put_mapped(out, at, 16 * kind, &[row.second, row.third], &[0, 0])
        }
        Table::Operators => {
            let fields = [row.first, row.second, row.third, row.fourth];
            put_mapped(out, at, 0, &fields, &[0, 0, 0, DEFAULT_PERCENT])
        }
    }
}

// The head, at the front.
#[tactic(auto, unfolding(file_format::specs::Bytes::head_bytes, file_format::specs::Bytes::head_fields))]
pub fn put_head(out: &mut [u8], head: Head) -> usize
    ensures { Put (head_bytes head) 0 result out.old out.new }
{
    let fields = [
        head.variables,
        head.twins,
        head.formulas,
        head.effects,
        head.operators,
        head.goal,
    ];
    put_mapped(out, 0, 0, &fields, &[0; 6])
}
