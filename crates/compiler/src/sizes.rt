// How much the lent tables allow, and how large a frame is tried. Constant cost, all of them.
ghost use Rattle.std.specs.Prelude.{◌≤◌, ◌≡◌, min};
ghost use Rattle.compiler.specs.Inner.Sizes.{counts_in, with_rows, Small};

use crate::Lengths;
use crate::layout::{
    MOST_EFFECT_ROWS, MOST_ROWS, MOST_VARIABLES, SMALL_EFFECTS, SMALL_FORMULAS, SMALL_OPERATORS,
    SMALL_ROWS, SMALL_VARIABLES,
};
use compile_parts::Counts;
use formula_builder::Frame;
use task::Head;

// The source's counts, and as much room as the limits and the lent tables allow.
pub fn counts_of(head: Head, lengths: Lengths) -> Counts
    requires { (head.variables ≤ 512) × (head.variables ≤ lengths.values) }
    ensures { result ≡ counts_in head lengths }
{
    let variables = head.variables as usize;
    let twins = lengths.originals.min(lengths.values - variables);
    Counts {
        frame: Frame {
            variables,
            formulas: head.formulas as usize,
            effects: head.effects as usize,
            rows: (lengths.table / 3).min(MOST_ROWS),
            twins: twins.min(MOST_VARIABLES - variables),
        },
        operators: head.operators as usize,
        goal: head.goal as usize,
        room: (lengths.out / 3).min(MOST_EFFECT_ROWS),
    }
}

// The same with no more rows than a small frame has.
pub fn fewer_rows(counts: Counts) -> Counts
    ensures { result ≡ with_rows counts (min counts.frame.rows 512) }
{
    let frame = counts.frame;
    Counts {
        frame: Frame {
            rows: frame.rows.min(SMALL_ROWS),
            ..frame
        },
        ..counts
    }
}

// Whether a small frame is tried first. Only what it needs is promised: for the rest any answer would do.
pub fn is_small(counts: Counts) -> bool
    ensures { Small counts result }
{
    let frame = counts.frame;
    frame.formulas <= SMALL_FORMULAS
        && frame.effects <= SMALL_EFFECTS
        && frame.variables <= SMALL_VARIABLES
        && counts.operators <= SMALL_OPERATORS
}
