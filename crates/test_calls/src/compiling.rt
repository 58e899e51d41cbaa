// Compiling to positive normal form.
ghost use Rattle.task.specs.Table.{lent};
ghost use Rattle.normal_form.specs.Compiled.{compiling};
ghost use Rattle.compiler.specs.Left.{tables, room_of};
ghost use Rattle.test_calls.specs.Compiling.{CompileTells};

use crate::buffers;

// `compiler::compile`, with the head as six numbers; the compiled task's head goes to a buffer of six words, all 0 after a refusal.
#[unsafe(no_mangle)]
pub extern "C" fn test_compile(
    v: u16,
    w: u16,
    f: u16,
    e: u16,
    o: u16,
    goal: u16,
    initial: &[u8],
    twins: &[u16],
    formulas: &[u16],
    effects: &[u16],
    operators: &[u16],
    values: &mut [u8],
    originals: &mut [u16],
    table: &mut [u16],
    out: &mut [u16],
    written: &mut [u16],
    scratch: &mut [u16],
    head: &mut [u16],
) -> u16
    ensures { CompileTells (compiling (lent (record { variables = v; twins = w; formulas = f; effects = e; operators = o; goal = goal }) initial.now twins.now formulas.now effects.now operators.now) (room_of (tables values.old originals.old table.old out.old written.old scratch.old))) head.old result head.new (tables values.new originals.new table.new out.new written.new scratch.new) }
{
    let source = buffers::tables(
        v, w, f, e, o, goal, initial, twins, formulas, effects, operators,
    );
    let answer = compiler::compile(&source, values, originals, table, out, written, scratch);
    buffers::tell_head(head, answer.unwrap_or(buffers::NO_HEAD));
    buffers::number(answer)
}
