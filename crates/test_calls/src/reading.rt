// Reading and writing task files.
ghost use Rattle.std.specs.Prelude.{◌≡◌, length};
ghost use Rattle.task.specs.Table.{lent};
ghost use Rattle.task_file.specs.Outcome.{lengths, read_outcome};
ghost use Rattle.task_writer.specs.Writing.{write_outcome};
ghost use Rattle.test_calls.specs.Reading.{ReadTells, WriteTells};

use crate::buffers;

// `task_file::read`; the head goes to a buffer of six words, all 0 after a refusal.
#[unsafe(no_mangle)]
pub extern "C" fn test_read(
    file: &[u8],
    head: &mut [u16],
    initial: &mut [u8],
    twins: &mut [u16],
    formulas: &mut [u16],
    effects: &mut [u16],
    operators: &mut [u16],
) -> u16
    ensures { ReadTells (read_outcome (lengths (length initial.old) (length twins.old) (length formulas.old) (length effects.old) (length operators.old)) file.now) head.old result head.new initial.new twins.new formulas.new effects.new operators.new }
{
    let answer = task_file::read::read(file, initial, twins, formulas, effects, operators);
    buffers::tell_head(head, answer.unwrap_or(buffers::NO_HEAD));
    buffers::number(answer)
}

// `task_writer::write`, with the head as six numbers: the file's length, or 65,536 and the number of the refusal.
#[unsafe(no_mangle)]
pub extern "C" fn test_write(
    v: u16,
    w: u16,
    f: u16,
    e: u16,
    o: u16,
    goal: u16,
    initial: &[u8],
    twins: &[u16],
    formulas: &[u16],
    effects: &[u16],
    operators: &[u16],
    out: &mut [u8],
) -> usize
    ensures { WriteTells (write_outcome (lent (record { variables = v; twins = w; formulas = f; effects = e; operators = o; goal = goal }) initial.now twins.now formulas.now effects.now operators.now) (length out.old)) result out.new }
{
    let tables = buffers::tables(
        v, w, f, e, o, goal, initial, twins, formulas, effects, operators,
    );
    match task_writer::write::write(&tables, out) {
        Ok(size) => size,
        Err(refusal) => 65536 + usize::from(refusal.number()),
    }
}
