// Compiling tables that pass, into the compiled task's file.
ghost use Rattle.std.specs.Prelude.{◌≡◌, length};
ghost use Rattle.task.specs.Table.{task_of};
ghost use Rattle.task.specs.Check.{refusal};
ghost use Rattle.task.specs.Lending.{lent_tables};
ghost use Rattle.task.specs.Refused.{told};
ghost use Rattle.compiled_file.specs.Filed.{compiled_file, CompileGives};
ghost use Rattle.compiled_file.specs.Inner.Giving.{compile_through, room_in, Sizes, SmallSource};

use crate::filing::{give_file, refuse};
use entry_tables::{FULL_OPERATOR_WORDS, FULL_ROW_WORDS, SMALL_OPERATOR_WORDS};
use task::refusal::Refusal;
use task::tables::Tables;

// Compiles tables that pass, through tables of these sizes: the rows of formulas and of effects, those of operators, and scratch. Compiling, one pass
// over the compiled task, and the tables cleared.
fn compile_in<const WORDS: usize, const OPERATORS: usize, const SCRATCH: usize>(
    source: &Tables<'_>,
    out: &mut [u8],
    res: &mut [u8],
) -> Result<(), Refusal>
    requires kept { refusal (lent_tables source.now) ≡ 0 }
    requires sizes { Sizes WORDS OPERATORS SCRATCH }
    ensures { CompileGives (compile_through (lent_tables source.now) (room_in WORDS OPERATORS SCRATCH) (length out.old) (length res.old)) (told result) out.new res.new }
{
    let mut initial = [0u8; 512];
    let mut twins = [0u16; 256];
    let mut formulas = [0u16; WORDS];
    let mut effects = [0u16; WORDS];
    let mut operators = [0u16; OPERATORS];
    let mut scratch = [0u16; SCRATCH];
    let compiled = compiler::compile(
        source,
        &mut initial,
        &mut twins,
        &mut formulas,
        &mut effects,
        &mut operators,
        &mut scratch,
    );
    let head = match compiled {
        Ok(head) => head,
        Err(refusal) => return refuse(refusal, out, res),
    };
    let tables = Tables {
        head,
        initial: &initial,
        twins: &twins,
        formulas: &formulas,
        effects: &effects,
        operators: &operators,
    };
    give_file(&tables, out, res)
}

// Through room for every compiled task: 83 KiB.
#[tactic(auto, using(crate::proofs::CompileWays::full_given), unfolding(entry_tables::specs::Own::own_room))]
fn compile_full(source: &Tables<'_>, out: &mut [u8], res: &mut [u8]) -> Result<(), Refusal>
    requires { refusal (lent_tables source.now) ≡ 0 }
    ensures { CompileGives (compiled_file (task_of (lent_tables source.now)) (length out.old) (length res.old)) (told result) out.new res.new }
{
    compile_in::<FULL_ROW_WORDS, FULL_OPERATOR_WORDS, 16384>(source, out, res)
}

// Compiles a source in small tables: through small room, 9 KiB, and only if the compiled task has no room there, 15, through the full room. A file of
// 77 bytes takes 1.9 us, in full room 3.5.
fn compile_short(source: &Tables<'_>, out: &mut [u8], res: &mut [u8]) -> Result<(), Refusal>
    requires { SmallSource (lent_tables source.now) }
    ensures { CompileGives (compiled_file (task_of (lent_tables source.now)) (length out.old) (length res.old)) (told result) out.new res.new }
{
    let small = compile_in::<1536, SMALL_OPERATOR_WORDS, 512>(source, out, res);
    if small != Err(Refusal::NoRoom) {
        return small;
    }
    compile_full(source, out, res)
}

// Compiles tables that pass.
pub fn compile_tables(source: &Tables<'_>, out: &mut [u8], res: &mut [u8]) -> Result<(), Refusal>
    requires { refusal (lent_tables source.now) ≡ 0 }
    ensures { CompileGives (compiled_file (task_of (lent_tables source.now)) (length out.old) (length res.old)) (told result) out.new res.new }
{
    if source.formulas.len() + source.effects.len() <= 768 {
        compile_short(source, out, res)
    } else {
        compile_full(source, out, res)
    }
}
