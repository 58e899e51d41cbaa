// Finishing a small task, by hand.
ghost use Rattle.std.specs.Prelude.{◌≤◌};

use crate::{Counts, Filled, NoRoom, finish};
use formula_builder::{Builder, Frame};
use rule_writer::store;
use task::MOST_OPERATORS;

// Two variables, the first with a twin; room for a row and a twin more than are built.
const FRAME: Frame = Frame {
    variables: 2,
    formulas: 1,
    effects: 1,
    rows: 5,
    twins: 2,
};

// Three words for each of 256 operators and 2,048 changes.
const RECORDS: usize = 6912;

// What is left in tables that have words to spare: 7 or 9 in those that are written last, 0 in the other two. Behind what was built stand 8s.
#[derive(Drop)]
struct Left {
    answer: Result<Filled, NoRoom>,
    values: [u8; 4],
    originals: [u16; 3],
    table: [u16; 13],
    out: [u16; 37],
    written: [u16; 5],
}

// Finishes a task of one operator, which sets variable 0 under row 1 and clears it under row 2.
fn finished(room: usize) -> Left
    requires { (1 ≤ room) × (room ≤ 12) }
{
    let counts = Counts {
        frame: FRAME,
        operators: 1,
        goal: 0,
        room,
    };
    let b = Builder {
        frame: FRAME,
        rows: 4,
        twins: 1,
        table: &mut [0, 0, 0, 1, 0, 0, 2, 2, 0, 2, 0, 0, 8],
        originals: &mut [0, 8],
    };
    // Operator 0 has precondition 2, and its changes end at 1; behind the records of operators, change 0 is of variable 0, with A 1 and D 2.
    let mut records = [0; RECORDS];
    store(&mut records, 0, 2, 1, 0);
    store(&mut records, MOST_OPERATORS as usize, 0, 1, 2);
    let mut left = Left {
        answer: Err(NoRoom),
        values: [7; 4],
        originals: [9; 3],
        table: [9; 13],
        out: [0; 37],
        written: [0; 5],
    };
    left.answer = finish(
        counts,
        &b,
        3,
        &[1, 0],
        &[4, 5, 30, 100],
        &records,
        &mut left.values,
        &mut left.originals,
        &mut left.table,
        &mut left.out,
        &mut left.written,
    );
    left
}

// The effect rows are the empty effect, then those of "set 0" and "clear 2" under row 1 and "clear 0" and "set 2" under row 2.
#[test]
fn all_is_written(rt: HostRuntime) {
    let left = finished(12);
    let filled = Filled {
        rows: 4,
        twins: 1,
        effects: 12,
        goal: 3,
    };
    assert_eq!(rt; left.answer, Ok(filled));
    assert_eq!(rt; left.values, [1, 0, 0, 7]);
    assert_eq!(rt; left.originals, [0, 9, 9]);
    assert_eq!(rt; left.table, [0, 0, 0, 1, 0, 0, 2, 2, 0, 2, 0, 0, 9]);
    let rows = [
        0, 0, 0, 1, 0, 0, 4, 1, 1, 2, 2, 0, 4, 1, 3, 3, 2, 4, 2, 0, 0, 4, 2, 6, 3, 5, 7, 1, 2, 0,
        4, 2, 9, 3, 8, 10, 0,
    ];
    assert_eq!(rt; left.out, rows);
    assert_eq!(rt; left.written, [2, 11, 30, 100, 0]);
}

#[test]
fn tables_written_last_stay_without_room(rt: HostRuntime) {
    let left = finished(11);
    assert_eq!(rt; left.answer, Err(NoRoom));
    assert_eq!(rt; left.values, [7; 4]);
    assert_eq!(rt; left.originals, [9; 3]);
    assert_eq!(rt; left.table, [9; 13]);
}
