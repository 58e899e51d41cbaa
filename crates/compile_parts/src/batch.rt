// The operators, a batch at a time.
ghost use Rattle.compile_parts.specs.Inner.Batches.{TakesBatch, TookBatch};

use building::{Progress, take_operator};
use conditions::ConditionBuilder;
use effect_batches::next_batch;
use formula_builder::NoRoom;

// The next operator, and all others of the batch that begins with it. Costs what next_batch and take_operator do.
pub fn take_batch(
    b: &mut ConditionBuilder<'_, '_, '_, '_>,
    operators: &[u16],
    count: usize,
    first: &[u16],
    from: Progress,
    records: &mut [u16],
) -> Result<Progress, NoRoom>
    requires { TakesBatch b.old operators.now count first.now records.old from }
    ensures { TookBatch b.old b.new operators.now count records.new from result }
{
    let end = next_batch(b, operators, from.operators, count, first);
    let mut at = from;
    for _ in from.operators..end {
        at = take_operator(b, operators, at, records)?;
    }
    Ok(at)
}
