// The program: compiles the task file on standard input and prints the compiled task's lines, or r and the number.
#![tactic(auto)]

ghost use Rattle.std.specs.Prelude.{◌≤◌, length};

use std::io;
use std::io::{Read, Write};

// More than the 43,854 bytes of an input that its text can depend on (compile_text, proofs/TextWays: cut_text), so what is not read changes
// nothing.
const INPUT_BYTES: usize = 65536;

// Reads until the buffer is full, the input ends or a read fails: how many bytes stand at the start of the buffer. Each read but the last gives a
// byte at least.
fn read_full<R: Read>(input: &mut R, buffer: &mut [u8]) -> usize
    ensures { result ≤ length buffer.new }
{
    let mut done = 0;
    for _ in 0..buffer.len() {
        let count = match input.read(&mut buffer[done..]) {
            Ok(count) => count,
            Err(_) => 0,
        };
        if count == 0 {
            break;
        }
        done += count;
    }
    done
}

// The text goes out by one write.
fn main(rt: HostRuntime) -> io::Result<()> {
    let mut input = [0u8; INPUT_BYTES];
    let length = read_full(&mut rt.stdin(), &mut input);
    let mut text = [0u8; compile_text::MOST_TEXT];
    let end = compile_text::text_of(&input[..length], &mut text);
    rt.stdout().write_all(&text[..end])
}
