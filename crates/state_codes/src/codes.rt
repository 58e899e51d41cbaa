// States and their codes: variable v is bit v.
ghost use Rattle.std.specs.Prelude.{◌≤◌, ◌≡◌, length};
ghost use Rattle.state_codes.specs.Inner.States.{Bits, code, state_of};

// The code of a state. Linear in the variables, as is the one below.
pub fn code_of(state: &[u8]) -> usize
    requires { Bits (length state.now) state.now × (length state.now ≤ 10) }
    ensures { result ≡ code state.now }
{
    let mut code = 0;
    for bit in state.iter().rev() {
        code = 2 * code + usize::from(*bit);
    }
    code
}

// The state of a code.
pub fn write_state(code: usize, state: &mut [u8])
    requires { length state.old ≤ 10 }
    ensures { state.new ≡ state_of (length state.old) code }
{
    for (v, bit) in state.iter_mut().enumerate() {
        *bit = ((code >> v) % 2) as u8;
    }
}
