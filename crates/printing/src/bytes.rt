// Bytes, numbers and words at a place of a buffer. What is past the buffer's end is counted and not stored, so nothing here fails. The buffer and
// the place are two parameters: of a struct with the buffer in it each contract would have to say that it still holds the same buffer.
ghost use Rattle.std.specs.Prelude.{◌+◌, ◌≤◌, [], ◌∷◌};
ghost use Rattle.printing.specs.Lines.{decimal, word as word-text};
ghost use Rattle.printing.specs.Inner.Put.{Put};

// One byte. Constant time; the others here take a step for each byte.
pub fn put(out: &mut [u8], at: usize, byte: u8) -> usize
    requires { at ≤ 1000000 }
    ensures { Put out.old at (byte ∷ []) 1 out.new result }
{
    if at < out.len() {
        out[at] = byte;
    }
    at + 1
}

// A number in decimal: five digits at most, the higher ones first. The library's decimal text has a buffer of its own, from which it would have to
// be copied.
fn number(out: &mut [u8], at: usize, n: u16) -> usize
    requires { at + 5 ≤ 1000000 }
    ensures { Put out.old at (decimal n) 5 out.new result }
{
    if n < 10 {
        return put(out, at, b'0' + n as u8);
    }
    let next = number(out, at, n / 10);
    put(out, next, b'0' + (n % 10) as u8)
}

// A blank and a number.
#[tactic(auto, using(crate::proofs::Puts::then_put), unfolding(crate::specs::Lines::word))]
pub fn word(out: &mut [u8], at: usize, n: u16) -> usize
    requires { at + 6 ≤ 1000000 }
    ensures { Put out.old at (word-text n) 6 out.new result }
{
    let next = put(out, at, b' ');
    number(out, next, n)
}
