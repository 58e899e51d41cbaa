// Lines in the program's buffer, which has room for every text. Constant time beside the calls.
ghost use Rattle.std.specs.Prelude.{◌≡◌};
ghost use Rattle.task.specs.Table.{lent, task_of};
ghost use Rattle.task.specs.Check.{refusal};
ghost use Rattle.task.specs.Refused.{number_of};
ghost use Rattle.printing.specs.Lines.{lines, refusal_line};
ghost use Rattle.compile_text.specs.Text.{TextGives};

use crate::MOST_TEXT;
use task::Head;
use task::refusal::Refusal;
use task::tables::Tables;

// The line of a refusal.
pub fn number_line(refusal: Refusal, out: &mut [u8; MOST_TEXT]) -> usize
    ensures { TextGives (refusal_line (number_of refusal)) result out.new }
{
    printing::print_refusal(refusal.number(), out).unwrap()
}

// The lines of tables that pass. They come one by one: that its words fit 16 bits is known of a slice, and not of one in a struct (tried with
// `&Tables`, where the proof that every text fits does not close).
pub fn task_lines(
    head: Head,
    initial: &[u8],
    twins: &[u16],
    formulas: &[u16],
    effects: &[u16],
    operators: &[u16],
    out: &mut [u8; MOST_TEXT],
) -> usize
    requires { refusal (lent head initial.now twins.now formulas.now effects.now operators.now) ≡ 0 }
    ensures { TextGives (lines (task_of (lent head initial.now twins.now formulas.now effects.now operators.now))) result out.new }
{
    let tables = Tables {
        head,
        initial,
        twins,
        formulas,
        effects,
        operators,
    };
    printing::print(&tables, out).unwrap()
}
