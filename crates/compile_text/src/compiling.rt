// The text of a task whose tables pass: compiled, or refused.
ghost use Rattle.std.specs.Prelude.{◌≡◌};
ghost use Rattle.task.specs.Table.{task_of};
ghost use Rattle.task.specs.Check.{refusal};
ghost use Rattle.task.specs.Lending.{lent_tables};
ghost use Rattle.compile_text.specs.Text.{compiled_text, TextGives};

use crate::MOST_TEXT;
use crate::answers::{number_line, task_lines};
use entry_tables::{FULL_OPERATOR_WORDS, FULL_ROW_WORDS, FULL_TWINS};
use task::tables::Tables;

// Through tables of its own, with room for every task. The compiling, and one pass over the compiled task.
pub fn compile_text(source: &Tables<'_>, out: &mut [u8; MOST_TEXT]) -> usize
    requires { refusal (lent_tables source.now) ≡ 0 }
    ensures { TextGives (compiled_text (task_of (lent_tables source.now))) result out.new }
{
    let mut values = [0u8; 512];
    let mut originals = [0u16; FULL_TWINS];
    let mut table = [0u16; FULL_ROW_WORDS];
    let mut rules = [0u16; FULL_ROW_WORDS];
    let mut written = [0u16; FULL_OPERATOR_WORDS];
    let mut scratch = [0u16; 16384];
    let compiled = compiler::compile(
        source,
        &mut values,
        &mut originals,
        &mut table,
        &mut rules,
        &mut written,
        &mut scratch,
    );
    match compiled {
        Ok(head) => task_lines(head, &values, &originals, &table, &rules, &written, out),
        Err(refusal) => number_line(refusal, out),
    }
}
