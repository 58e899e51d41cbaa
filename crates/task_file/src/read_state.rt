// The initial state.
ghost use Rattle.std.specs.Prelude.{◌≡◌, ◌≤◌, ◌<◌, length};
ghost use Rattle.task.specs.Bounded.{upto};
ghost use Rattle.file_format.specs.Bytes.{bytes_for};
ghost use Rattle.file_format.specs.Reading.{bit_of, spare_clear, initial_read};
ghost use Rattle.task_file.specs.Inner.Answers.{left_as};

use crate::reader::Reader;
use task::refusal::Refusal;

// Whether the bits behind the last of `count` variables are 0. Constant time.
#[tactic(auto, unfolding(file_format::specs::Reading::spare_clear, file_format::specs::Bytes::bytes_for))]
fn spare_clear(packed: &[u8], count: usize) -> bool
    requires { bytes_for count ≤ length packed.now }
    ensures { result ≡ spare_clear packed.now count }
{
    count % 8 == 0 || packed[count / 8] >> (count % 8) == 0
}

// Variable v of a packed state, from bit v mod 8 of byte v / 8, for each variable. Linear.
#[tactic(auto, unfolding(file_format::specs::Bytes::bytes_for, file_format::specs::Reading::bit_of, task::specs::Bounded::upto))]
fn unpack(packed: &[u8], initial: &mut [u8])
    requires { bytes_for (length initial.old) ≤ length packed.now }
    ensures { initial.new ≡ upto (length initial.old) (bit_of packed.now) }
{
    for (v, bit) in initial.iter_mut().enumerate() {
        *bit = (packed[v / 8] >> (v % 8)) % 2;
    }
}

impl Reader<'_> {
    // The initial state, as `initial`: a byte a variable. Linear.
    #[tactic(auto, using(crate::proofs::Ways::returned_left, crate::proofs::StateWays::state_short, crate::proofs::StateWays::state_unclear, crate::proofs::StateWays::state_there), unfolding(file_format::specs::Bytes::bytes_for))]
    pub fn state(&mut self, initial: &mut [u8]) -> Result<(), Refusal>
        requires { length initial.old < 65536 }
        ensures { left_as initial.new result self.new ≡ initial_read (length initial.old) self.old }
    {
        let count = initial.len();
        let packed = self.bytes((count + 7) / 8)?;
        if !spare_clear(packed, count) {
            return Err(Refusal::SpareBit);
        }
        unpack(packed, initial);
        Ok(())
    }
}
