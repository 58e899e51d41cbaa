// Rows of three words.
ghost use Rattle.std.specs.Prelude.{◌≡◌, ◌+◌, ◌*◌, ◌≤◌, length};
ghost use Rattle.task.specs.Inner.Stored.{three};

use task::table_rows::store_row;
use task::{Table, TableRow};

// Stores three words as row n.
pub fn store(table: &mut [u16], n: usize, x: u16, y: u16, z: u16)
    requires { 3 * n + 3 ≤ length table.old }
    ensures { table.new ≡ three table.old n x y z }
{
    let row = TableRow {
        first: x,
        second: y,
        third: z,
        fourth: 0,
    };
    store_row(Table::Effects, table, n, row);
}
