// The calls of this crate.
ghost use Rattle.std.specs.Prelude.{ℕ, List, length};
ghost use Rattle.task.specs.Lending.{lent_tables};
ghost use Rattle.task.specs.Refused.{number_of};
ghost use Rattle.printing.specs.Inner.Put.{Put};
ghost use Rattle.printing.specs.Printing.{PrintGives, print_answered, placed, printing, printing_refusal};

use crate::lines::{line, task_lines};
use task::check::check;
use task::refusal::Refusal;
use task::tables::Tables;

// The answer for a text of `size` bytes that was put into the front of a buffer: 0 behind it; 20 and all 0 if it is not whole there.
fn settled(out: &mut [u8], size: usize) -> Result<usize, Refusal>
    ensures { (before text : List ℕ) (most : ℕ) → Put before 0 text most out.old size → PrintGives (placed text (length before)) (print_answered result) out.new }
{
    if out.len() < size {
        out.fill(0);
        return Err(Refusal::ShortOutput);
    }
    out[size..].fill(0);
    Ok(size)
}

// The lines of a task, if its tables pass: otherwise their number; 20 if `out` is shorter than the lines.
// The check, then one pass over the tables; linear in them and in `out`.
pub fn print(tables: &Tables<'_>, out: &mut [u8]) -> Result<usize, Refusal>
    ensures { PrintGives (printing (lent_tables tables.now) (length out.old)) (print_answered result) out.new }
{
    if let Err(refusal) = check(tables) {
        out.fill(0);
        return Err(refusal);
    }
    let size = task_lines(out, tables);
    settled(out, size)
}

// The line of a refusal: r and the number; 20 if `out` is shorter than that. Linear in `out`.
pub fn print_refusal(number: u16, out: &mut [u8]) -> Result<usize, Refusal>
    ensures { PrintGives (printing_refusal number (length out.old)) (print_answered result) out.new }
{
    let size = line(out, 0, b'r', &[number]);
    settled(out, size)
}
