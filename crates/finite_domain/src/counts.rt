// The head's limits: 6.
ghost use Rattle.std.specs.Prelude.{◌≡◌};
ghost use Rattle.finite_domain.specs.Check.{finite_counts_kept};

use crate::MOST_VARIABLES;
use task::Head;
use task::counts::counts_kept;

// Whether every count is within its limits. Constant time.
#[tactic(auto, unfolding(crate::specs::Check::finite_counts_kept))]
pub fn finite_counts_kept(head: Head) -> bool
    ensures { result ≡ finite_counts_kept head }
{
    head.variables <= MOST_VARIABLES && head.twins == 0 && counts_kept(head)
}
