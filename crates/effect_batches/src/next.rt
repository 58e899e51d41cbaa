// The next batch: it begins, and its columns are filled.
ghost use Rattle.effect_batches.specs.Inner.Next.{NextBatchBy, BegunBatchBy};

use crate::MOST_ROWS;
use crate::begin::begin_batch;
use crate::fill::fill_columns;
use conditions::ConditionBuilder;

// The batch that begins with operator `from`, which is next; answers its end. Nothing is added to what is built. Costs at most 19 passes over
// the effects, nine over the operators that are left, one over what is kept, for each atom a walk over the rows below those that are to be
// filled, and a list of 8 KiB, cleared.
pub fn next_batch(
    b: &mut ConditionBuilder<'_, '_, '_, '_>,
    operators: &[u16],
    from: usize,
    count: usize,
    first: &[u16],
) -> usize
    requires { NextBatchBy b.old operators.now from count first.now }
    ensures { BegunBatchBy b.old b.new from count result }
{
    let mut list = [0u16; MOST_ROWS];
    let effects = b.effects;
    let frame = b.images.builder.frame;
    let batch = begin_batch(
        effects, operators, from, count, first, frame, b.notes, &mut list,
    );
    fill_columns(b, &list[..batch.rows]);
    batch.end
}
