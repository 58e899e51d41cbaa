// Compiling a task file into the compiled task's file.
ghost use Rattle.std.specs.Prelude.{length};
ghost use Rattle.task.specs.Refused.{told};
ghost use Rattle.file_format.specs.Reading.{reading};
ghost use Rattle.task_file.specs.Outcome.{lengths};
ghost use Rattle.entry_tables.specs.Inner.Answers.{OwnSizes};
ghost use Rattle.compiled_file.specs.Filed.{CompileGives};
ghost use Rattle.compile_entry.specs.Entry.{compile_entry_by, compile_entry};

use entry_tables::{
    FULL_OPERATOR_WORDS, FULL_ROW_WORDS, FULL_TWINS, OwnTables, SMALL_OPERATOR_WORDS,
    SMALL_ROW_WORDS, SMALL_TWINS,
};
use task::refusal::Refusal;

// Reads into tables of these sizes, then compiles. A file of 77 bytes takes 1.9 us in small tables, with full ones (and then full room) 4.6.
fn compile_in<const TWINS: usize, const WORDS: usize, const OPERATORS: usize>(
    file: &[u8],
    out: &mut [u8],
    res: &mut [u8],
) -> Result<(), Refusal>
    requires { OwnSizes TWINS WORDS OPERATORS }
    ensures { CompileGives (compile_entry_by (reading (lengths 512 TWINS WORDS WORDS OPERATORS) file.now) (length out.old) (length res.old)) (told result) out.new res.new }
{
    let mut own = OwnTables::<TWINS, WORDS, OPERATORS>::new();
    match own.read(file) {
        Ok(tables) => compiled_file::compile_tables(&tables, out, res),
        Err(refusal) => compiled_file::refuse(refusal, out, res),
    }
}

// Compiles a task file: the compiled task's file and its length, or the refusal and all 0.
// Cost: one pass over the file, compiling (twice for a short file whose compiled task is not small), one pass over the compiled task.
pub fn compile(file: &[u8], out: &mut [u8], res: &mut [u8]) -> Result<(), Refusal>
    ensures { CompileGives (compile_entry file.now (length out.old) (length res.old)) (told result) out.new res.new }
{
    if file.len() <= 128 {
        let small = compile_in::<SMALL_TWINS, SMALL_ROW_WORDS, SMALL_OPERATOR_WORDS>(
            file, out, res,
        );
        if small != Err(Refusal::ShortTable) {
            return small;
        }
    }
    compile_in::<FULL_TWINS, FULL_ROW_WORDS, FULL_OPERATOR_WORDS>(file, out, res)
}
