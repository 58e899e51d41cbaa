// The entries for a planner written in C: reading, compiling, running and the cheapest plan through numbers and byte slices.
#![tactic(auto)]

ghost use Rattle.std.specs.Prelude.{◌≡◌, length};
ghost use Rattle.task.specs.Refused.{told};
ghost use Rattle.layouts.specs.Layout.{Lays};
ghost use Rattle.read_entry.specs.Entry.{read_entry};
ghost use Rattle.compiled_file.specs.Filed.{CompileGives};
ghost use Rattle.compile_entry.specs.Entry.{compile_entry};
ghost use Rattle.run_entry.specs.Entry.{run_entry};
ghost use Rattle.run_entry.specs.Entry.{RunEntryGives};
ghost use Rattle.plan_entry.specs.Entry.{plan_entry, PlanEntryGives};

use task::refusal::Refusal;

// What crosses to C: 0, or the refusal's number.
fn number(answer: Result<(), Refusal>) -> u32
    ensures { result ≡ told answer }
{
    match answer {
        Ok(()) => 0,
        Err(refusal) => refusal.into(),
    }
}

// Reads a task file: 0 and its tables, or the number and all 0. One pass over the file and one over its tables.
#[unsafe(no_mangle)]
pub extern "C" fn pnf_read(file: &[u8], tables: &mut [u8]) -> u32
    ensures { Lays (read_entry file.now (length tables.old)) result tables.new }
{
    number(read_entry::read(file, tables))
}

// Compiles a task file: 0, the compiled task's file and its length, or the number and all 0. One pass over the file, compiling, one pass
// over the compiled task.
#[unsafe(no_mangle)]
pub extern "C" fn pnf_compile(file: &[u8], out: &mut [u8], res: &mut [u8]) -> u32
    ensures { CompileGives (compile_entry file.now (length out.old) (length res.old)) result out.new res.new }
{
    number(compile_entry::compile(file, out, res))
}

// Runs operator numbers, two bytes each, from a state: 0, 17 or 18 and the result, or the number and all 0 with the state as it was. One
// pass over the file, then the formulas, the effects and the variables a step.
#[unsafe(no_mangle)]
pub extern "C" fn pnf_run(file: &[u8], state: &mut [u8], sequence: &[u8], res: &mut [u8]) -> u32
    ensures { RunEntryGives (run_entry file.now state.old sequence.now (length res.old)) result state.new res.new }
{
    run_entry::run(file, state, sequence, res)
}

// The cheapest plan of a task file of at most 10 variables: 0, its operator numbers, two bytes each, and its steps and cost; or the number and all 0. One
// pass over the file, then the search.
#[unsafe(no_mangle)]
pub extern "C" fn pnf_plan(file: &[u8], out: &mut [u8], res: &mut [u8]) -> u32
    ensures { PlanEntryGives (plan_entry file.now (length out.old) (length res.old)) result out.new res.new }
{
    number(plan_entry::plan(file, out, res))
}
