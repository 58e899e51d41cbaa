// Columns for a batch of operators at a time: what is built of rows that several operators come to is kept while the batch lasts. While
// operator o is built it comes to rows for the first time, and to rows of earlier operators again, but only at its entries: the rows that o
// itself or a row first come to by o names, and that an earlier operator came to. An entry gets a column. A batch has as many of the next
// operators as there is room for the entries of, and the columns of rows that operators before it came to are filled as it begins:
// building again adds nothing. So every row is walked for an atom at most once as its operator's own and once for each batch. Duals
// are not filled: a row is walked for one at most once for each change that needs it, of which there are 2,048 in all.
//
//              operator 0        operator 1           operator 2
//                  |                 |                    |
//     rows     r9: under         r11: both            r12: both          first(r9) = 1, first(r11) = 2, first(r12) = 3
//                  |              /     \              /     \
//              r7: both       r10: set   \         r8: set    \
//               /    \                    \                    \
//           r5: set  r6: under <-----------+--------------------+        r6 is an entry of operators 1 and 2: first(r6) = 1
//                     |
//                    r4: both ..                                         below an entry nothing is come to again
//
//     notes    columns (E) | last joins (3 E) | sets | kept conditions    word e of the columns is the number of row e, 0 for none
//     first    E words     | the first operator that comes to row e, plus 1; 0, if none does
//     list     E words     | the rows with a column that operators before the batch came to, upwards
//
// Both zeros stand in words of tables, 2 bytes a row, so neither is an Option.
#![tactic(auto)]

mod begin;
mod fill;
mod first;
mod next;
mod number;

pub use first::find_first;
pub use next::next_batch;

// As many effect rows as there can be.
pub const MOST_ROWS: usize = 4096;

// A batch: where it ends, and how many rows are to be filled.
#[derive(Clone, Copy, Debug, PartialEq, Eq)]
pub struct Batch {
    pub end: usize,
    pub rows: usize,
}
