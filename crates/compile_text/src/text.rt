// The text of an input.
ghost use Rattle.compile_text.specs.Text.{text_of, TextGives};

use crate::MOST_TEXT;
use crate::answers::number_line;
use crate::compiling::compile_text;
use entry_tables::{FULL_OPERATOR_WORDS, FULL_ROW_WORDS, FULL_TWINS, OwnTables};

// The text that the program prints, given this input: its length, and the text in the front of `out`, 0 behind it. An input that is cut
// behind 43,854 bytes has the text of the whole (proofs/Cut). Reading, compiling, one pass over the compiled task, and clearing `out`.
pub fn text_of(file: &[u8], out: &mut [u8; MOST_TEXT]) -> usize
    ensures { TextGives (text_of file.now) result out.new }
{
    let mut own = OwnTables::<FULL_TWINS, FULL_ROW_WORDS, FULL_OPERATOR_WORDS>::new();
    match own.read(file) {
        Ok(tables) => compile_text(&tables, out),
        Err(refusal) => number_line(refusal, out),
    }
}
