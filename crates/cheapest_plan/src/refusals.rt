// What refuses the call before it searches.
ghost use Rattle.std.specs.Prelude.{◌^◌, ◌≤◌, ◌≡◌};
ghost use Rattle.task.specs.Lending.{lent_tables};
ghost use Rattle.task.specs.Refused.{told};
ghost use Rattle.cheapest_plan.specs.Planned.{search_refusal};

use crate::MOST_VARIABLES;
use task::check::{check, refuse_unless};
use task::refusal::Refusal;
use task::tables::Tables;

// 2 to the number of variables. Constant time.
pub fn states_of(variables: u16) -> usize
    requires { variables ≤ 10 }
    ensures { (result ≡ 2 ^ variables) × (result ≤ 1024) }
{
    1 << variables
}

// The first refusal in order: the tables' own, 21, 14. Linear in the tables.
pub fn refused_early(tables: &Tables<'_>, scratch: &[u8], words: &[u32]) -> Result<(), Refusal>
    ensures { told result ≡ search_refusal (lent_tables tables.now) scratch.now words.now }
{
    check(tables)?;
    let head = tables.head;
    if MOST_VARIABLES < head.variables {
        return Err(Refusal::ManyVariables);
    }
    let rows = head.formulas as usize + head.effects as usize;
    let roomy = rows <= scratch.len() && 4 * states_of(head.variables) <= words.len();
    refuse_unless(roomy, Refusal::ShortScratch)
}
