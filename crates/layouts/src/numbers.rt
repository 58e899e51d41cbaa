// The state and the sequence that come in for a run.
ghost use Rattle.std.specs.Prelude.{◌≡◌, ◌++◌, ◌/◌, ◌%◌, ◌≤◌, ◌&&◌, length, drop, eqb};
ghost use Rattle.task.specs.Check.{state_kept, sequence_kept};
ghost use Rattle.task.specs.Refused.{told};
ghost use Rattle.layouts.specs.Layout.{numbers_of, run_number};

use task::check::{bits, refuse_unless};
use task::refusal::Refusal;

// Whether these are bits of so many variables. Linear in the state.
#[tactic(auto, unfolding(task::specs::Check::state_kept))]
fn state_kept(variables: usize, state: &[u8]) -> bool
    ensures { result ≡ state_kept variables state.now }
{
    state.len() == variables && bits(state)
}

// Whether these are whole numbers, and not too many. Constant time.
#[tactic(auto, using(crate::proofs::RunWays::numbers_length), unfolding(task::specs::Check::sequence_kept))]
fn sequence_kept(sequence: &[u8]) -> bool
    ensures { result ≡ eqb (length sequence.now % 2) 0 && sequence_kept (numbers_of sequence.now) }
{
    sequence.len() % 2 == 0 && sequence.len() / 2 <= 65535
}

// The first in order: 16, 19, 20. Linear in the state.
pub fn refused_run(
    variables: usize,
    state: &[u8],
    sequence: &[u8],
    room: usize,
) -> Result<(), Refusal>
    ensures { told result ≡ run_number variables state.now sequence.now room }
{
    refuse_unless(state_kept(variables, state), Refusal::State)?;
    refuse_unless(sequence_kept(sequence), Refusal::LongSequence)?;
    refuse_unless(16 <= room, Refusal::ShortOutput)
}

// The operator numbers of a sequence of bytes, into the front of `numbers`; what stands behind them stays. Linear. It stays out of line: in a caller whose
// own array `numbers` is, the backend makes the loop a call of memcpy, which the archive for C would need from outside.
#[inline(never)]
pub fn decode(sequence: &[u8], numbers: &mut [u16])
    requires { length sequence.now / 2 ≤ length numbers.old }
    ensures { numbers.new ≡ numbers_of sequence.now ++ drop (length sequence.now / 2) numbers.old }
{
    for i in 0..sequence.len() / 2 {
        numbers[i] = u16::from_le_bytes([sequence[2 * i], sequence[2 * i + 1]]);
    }
}
