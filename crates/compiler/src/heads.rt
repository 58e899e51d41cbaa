// The head of the compiled task.
ghost use Rattle.std.specs.Prelude.{◌+◌, ◌≤◌, ◌≡◌};
ghost use Rattle.compiler.specs.Inner.Fills.{head_after};

use compile_parts::Filled;
use task::Head;

// The source's head, after what filling answered. Constant cost.
pub fn compiled_head(head: Head, filled: Filled) -> Head
    requires { head.variables + filled.twins ≤ 512 }
    ensures { result ≡ head_after head filled }
{
    Head {
        variables: head.variables + filled.twins,
        twins: filled.twins,
        formulas: filled.rows,
        effects: filled.effects,
        operators: head.operators,
        goal: filled.goal,
    }
}
