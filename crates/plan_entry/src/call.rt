// The cheapest plan of a task file. Both outputs are cleared before anything else, so that a refusal that `?` returns leaves them all 0.
ghost use Rattle.std.specs.Prelude.{◌≡◌, ◌≤◌, length};
ghost use Rattle.task.specs.Check.{refusal};
ghost use Rattle.task.specs.Lending.{lent_tables};
ghost use Rattle.task.specs.Refused.{told};
ghost use Rattle.task.specs.Table.{task_of};
ghost use Rattle.task.specs.Words.{head_of};
ghost use Rattle.file_format.specs.Reading.{reading};
ghost use Rattle.task_file.specs.Outcome.{lengths};
ghost use Rattle.cheapest_plan.specs.Cheapest.{cheapest};
ghost use Rattle.plan_entry.specs.Entry.{plan_picked, plan_number, plan_given, plan_entry_by, plan_entry, PlanEntryGives};
ghost use Rattle.plan_entry.specs.Inner.Giving.{small_plan, Clear, PlanIn};

use crate::giving::give_plan;
use crate::refusals::refused_plan;
use cheapest_plan::call::cheapest;
use entry_tables::{
    FULL_OPERATOR_WORDS, FULL_ROW_WORDS, FULL_TWINS, OwnTables, SMALL_OPERATOR_WORDS,
    SMALL_ROW_WORDS, SMALL_TWINS,
};
use task::Head;
use task::refusal::Refusal;
use task::tables::Tables;

// The search where nothing refuses it before it begins, in room of its own: for a plan of so many steps, and so many bytes and words of scratch.
fn plan_in<const STEPS: usize, const BYTES: usize, const WORDS: usize>(
    tables: &Tables<'_>,
    out: &mut [u8],
    res: &mut [u8],
) -> Result<(), Refusal>
    requires clear { Clear out.old res.old }
    requires room { PlanIn (lent_tables tables.now) STEPS BYTES WORDS (length res.old) }
    ensures { PlanEntryGives (plan_picked (cheapest (task_of (lent_tables tables.now))) (length out.old) (length res.old)) (told result) out.new res.new }
{
    let mut numbers = [0u16; STEPS];
    let mut scratch = [0u8; BYTES];
    let mut words = [0u32; WORDS];
    let plan = cheapest(tables, &mut numbers, &mut scratch, &mut words)?;
    give_plan(&numbers, plan, out, res)
}

// Whether a task has at most 6 variables and few rows. Constant time.
#[tactic(auto, unfolding(crate::specs::Inner::Giving::small_plan))]
fn is_small(head: Head) -> bool
    ensures { result ≡ small_plan head }
{
    head.variables <= 6 && head.formulas as usize + head.effects as usize <= 256
}

// On the tables that a file was read into: 21, 20, then the search, of a small task in 1.4 KiB, of any in 26 KiB.
fn plan_read(tables: &Tables<'_>, out: &mut [u8], res: &mut [u8]) -> Result<(), Refusal>
    requires clear { Clear out.old res.old }
    requires kept { refusal (lent_tables tables.now) ≡ 0 }
    ensures { PlanEntryGives (plan_given (plan_number (head_of (task_of (lent_tables tables.now))) (length res.old)) (task_of (lent_tables tables.now)) (length out.old) (length res.old)) (told result) out.new res.new }
{
    refused_plan(tables.head, res.len())?;
    if is_small(tables.head) {
        plan_in::<63, 256, 256>(tables, out, res)
    } else {
        plan_in::<1023, 8192, 4096>(tables, out, res)
    }
}

// Clears both outputs, reads into tables of its own of these sizes, then searches.
fn plan_through<const TWINS: usize, const WORDS: usize, const OPERATORS: usize>(
    file: &[u8],
    out: &mut [u8],
    res: &mut [u8],
) -> Result<(), Refusal>
    requires { (TWINS ≤ 256) × (WORDS ≤ 12288) × (OPERATORS ≤ 1024) }
    ensures { PlanEntryGives (plan_entry_by (reading (lengths 512 TWINS WORDS WORDS OPERATORS) file.now) (length out.old) (length res.old)) (told result) out.new res.new }
{
    out.fill(0);
    res.fill(0);
    let mut own = OwnTables::<TWINS, WORDS, OPERATORS>::new();
    let tables = own.read(file)?;
    plan_read(&tables, out, res)
}

// The cheapest plan of a task file: its operator numbers, two bytes each, and its steps and cost; or the refusal and all 0.
// Cost: one pass over the file, then the search. A short file goes through small tables, and only if they are too short for its head, 5, through the
// full ones.
pub fn plan(file: &[u8], out: &mut [u8], res: &mut [u8]) -> Result<(), Refusal>
    ensures { PlanEntryGives (plan_entry file.now (length out.old) (length res.old)) (told result) out.new res.new }
{
    if file.len() <= 128 {
        let answer = plan_through::<SMALL_TWINS, SMALL_ROW_WORDS, SMALL_OPERATOR_WORDS>(
            file, out, res,
        );
        if answer != Err(Refusal::ShortTable) {
            return answer;
        }
    }
    plan_through::<FULL_TWINS, FULL_ROW_WORDS, FULL_OPERATOR_WORDS>(file, out, res)
}
