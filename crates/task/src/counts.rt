// The head's own rules.
ghost use Rattle.std.specs.Prelude.{◌≡◌};
ghost use Rattle.task.specs.Check.{counts_kept, goal_kept};

use crate::{Head, MOST_EFFECTS, MOST_FORMULAS, MOST_OPERATORS, MOST_VARIABLES};

// Whether every count is within its limits. Constant time.
#[tactic(auto, unfolding(crate::specs::Check::counts_kept))]
pub fn counts_kept(head: Head) -> bool
    ensures { result ≡ counts_kept head }
{
    // W at most V - W, as a sum that does not wrap
    let both = head.twins as u32 + head.twins as u32;
    head.variables <= MOST_VARIABLES
        && both <= head.variables as u32
        && 1 <= head.formulas
        && head.formulas <= MOST_FORMULAS
        && head.effects <= MOST_EFFECTS
        && head.operators <= MOST_OPERATORS
}

// Whether the goal is a formula of the table. Constant time.
#[tactic(auto, unfolding(crate::specs::Check::goal_kept))]
pub fn goal_kept(head: Head) -> bool
    ensures { result ≡ goal_kept head }
{
    head.goal < head.formulas
}
