// Running a sequence of operator numbers on a task file.
ghost use Rattle.std.specs.Prelude.{◌≡◌, ◌≤◌, zero, length};
ghost use Rattle.task.specs.Check.{refusal};
ghost use Rattle.task.specs.Lending.{lent_tables};
ghost use Rattle.task.specs.Table.{task_of};
ghost use Rattle.file_format.specs.Reading.{reading};
ghost use Rattle.task_file.specs.Outcome.{lengths};
ghost use Rattle.layouts.specs.Layout.{run_number};
ghost use Rattle.run_entry.specs.Entry.{run_given, run_entry, run_entry_by, RunEntryGives};
ghost use Rattle.run_entry.specs.Inner.Giving.{small_run, RunIn, RunTold};

use entry_tables::{
    FULL_OPERATOR_WORDS, FULL_ROW_WORDS, FULL_TWINS, OwnTables, SMALL_OPERATOR_WORDS,
    SMALL_ROW_WORDS, SMALL_TWINS,
};
use layouts::numbers::{decode, refused_run};
use layouts::results::put_result;
use task::Head;
use task::refusal::Refusal;
use task::tables::Tables;

// The run where nothing refuses it, in room of its own for so many numbers and so many bytes of scratch. Gives the stop's number.
// Its steps times the formulas and the effects.
fn run_in<const NUMBERS: usize, const SCRATCH: usize>(
    tables: &Tables<'_>,
    state: &mut [u8],
    sequence: &[u8],
    res: &mut [u8],
) -> u32
    requires { RunIn (lent_tables tables.now) state.old sequence.now NUMBERS SCRATCH (length res.old) }
    ensures { RunEntryGives (run_given zero (task_of (lent_tables tables.now)) state.old sequence.now (length res.old)) result state.new res.new }
{
    let mut numbers = [0u16; NUMBERS];
    let mut scratch = [0u8; SCRATCH];
    decode(sequence, &mut numbers);
    let count = sequence.len() / 2;
    let outcome = plan::run(tables, state, &numbers[..count], &mut scratch).unwrap();
    put_result(outcome, res)
}

// Whether a run has at most 256 numbers and few rows. Constant time.
#[tactic(auto, unfolding(crate::specs::Inner::Giving::small_run))]
fn is_small(head: Head, bytes: usize) -> bool
    ensures { result ≡ small_run head bytes }
{
    bytes <= 512 && head.formulas as usize + head.effects as usize <= 256
}

// On the tables that a file was read into: what refuses a run, then the run. Small room is 768 bytes, full room 136 KiB: one step takes 0.39 us in
// the one, 1.3 in the other.
fn run_read(
    tables: &Tables<'_>,
    state: &mut [u8],
    sequence: &[u8],
    res: &mut [u8],
) -> Result<u32, Refusal>
    requires { refusal (lent_tables tables.now) ≡ 0 }
    ensures { RunTold (run_given (run_number (length (task_of (lent_tables tables.now)).initial) state.old sequence.now (length res.old)) (task_of (lent_tables tables.now)) state.old sequence.now (length res.old)) result state.new res.new }
{
    refused_run(tables.head.variables as usize, state, sequence, res.len())?;
    if is_small(tables.head, sequence.len()) {
        return Ok(run_in::<256, 256>(tables, state, sequence, res));
    }
    Ok(run_in::<65535, 8192>(tables, state, sequence, res))
}

// The task in tables of these sizes.
fn run_through<const TWINS: usize, const WORDS: usize, const OPERATORS: usize>(
    file: &[u8],
    state: &mut [u8],
    sequence: &[u8],
    res: &mut [u8],
) -> Result<u32, Refusal>
    requires { (TWINS ≤ 256) × (WORDS ≤ 12288) × (OPERATORS ≤ 1024) }
    ensures { RunTold (run_entry_by (reading (lengths 512 TWINS WORDS WORDS OPERATORS) file.now) state.old sequence.now (length res.old)) result state.new res.new }
{
    let mut own = OwnTables::<TWINS, WORDS, OPERATORS>::new();
    let tables = own.read(file)?;
    run_read(&tables, state, sequence, res)
}

// A short file goes through small tables, 3 KiB, and only if they are too short for its head through the full ones, 51 KiB. One step of a task of 77
// bytes takes 0.39 us, with full tables 1.3. A refusal leaves the result to the caller.
fn run_file(file: &[u8], state: &mut [u8], sequence: &[u8], res: &mut [u8]) -> Result<u32, Refusal>
    ensures { RunTold (run_entry file.now state.old sequence.now (length res.old)) result state.new res.new }
{
    if file.len() <= 128 {
        let answer = run_through::<SMALL_TWINS, SMALL_ROW_WORDS, SMALL_OPERATOR_WORDS>(
            file, state, sequence, res,
        );
        if answer != Err(Refusal::ShortTable) {
            return answer;
        }
    }
    run_through::<FULL_TWINS, FULL_ROW_WORDS, FULL_OPERATOR_WORDS>(file, state, sequence, res)
}

// Runs operator numbers, two bytes each, from a state: 0, 17 or 18 and the result, or the number and all 0 with the state as it was.
// Cost: one pass over the file, then the formulas, the effects and the variables a step.
pub fn run(file: &[u8], state: &mut [u8], sequence: &[u8], res: &mut [u8]) -> u32
    ensures { RunEntryGives (run_entry file.now state.old sequence.now (length res.old)) result state.new res.new }
{
    match run_file(file, state, sequence, res) {
        Ok(stop) => stop,
        Err(refusal) => {
            res.fill(0);
            u32::from(refusal)
        }
    }
}
