// The value counts and the initial values: 25 and 26.
ghost use Rattle.std.specs.Prelude.{◌≤◌, ◌≡◌, length, get_or, ltb};
ghost use Rattle.task.specs.Bounded.{every};
ghost use Rattle.task.specs.Check.{unless};
ghost use Rattle.task.specs.Refused.{number_of, told};
ghost use Rattle.finite_domain.specs.Check.{count_kept, value_kept};

use crate::{FiniteTables, MOST_VALUES};
use task::refusal::Refusal;

// Whether a value count is 1 to 16. Constant time.
#[tactic(auto, unfolding(crate::specs::Check::count_kept))]
fn count_kept(count: u16) -> bool
    ensures { result ≡ count_kept count }
{
    (1..=MOST_VALUES).contains(&count)
}

// Whether each value count is. Linear.
pub fn value_counts_kept(counts: &[u16]) -> bool
    ensures { result ≡ every (length counts.now) (λ a. count_kept (get_or counts.now a 0)) }
{
    counts.iter().all(|count| count_kept(*count))
}

// Whether each initial value is below its variable's count. Linear.
pub fn initial_values_kept(counts: &[u16], initial: &[u16]) -> bool
    requires { length counts.now ≡ length initial.now }
    ensures { result ≡ every (length initial.now) (λ a. value_kept counts.now a (get_or initial.now a 0)) }
{
    initial
        .iter()
        .zip(counts)
        .all(|(value, count)| *value < *count)
}

// The rule of a row that names variable a and its value b: the table's own refusal if there is no such variable, or 26. Constant time.
#[tactic(auto, unfolding(crate::specs::Check::value_kept))]
pub fn check_value(tables: &FiniteTables<'_>, a: u16, b: u16, own: Refusal) -> Result<(), Refusal>
    requires { tables.now.head.variables ≤ length tables.now.counts.now }
    ensures { told result ≡ unless (ltb a tables.now.head.variables) (number_of own) (unless (value_kept tables.now.counts.now a b) 26 0) }
{
    if tables.head.variables <= a {
        return Err(own);
    }
    if tables.counts[a as usize] <= b {
        return Err(Refusal::Value);
    }
    Ok(())
}
