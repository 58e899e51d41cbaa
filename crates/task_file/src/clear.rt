// Clearing lent tables.
ghost use Rattle.std.specs.Prelude.{◌≡◌, ◌*◌};
ghost use Rattle.task_file.specs.Inner.Answers.{Cleared, ClearedBehind};
ghost use Rattle.task_file.specs.Inner.Filling.{AllRoom};

use task::Head;
use task::operator_rows::OPERATOR_WORDS;

// Every table of a task all 0. Linear, as is the one below.
pub fn clear_tables(
    initial: &mut [u8],
    twins: &mut [u16],
    formulas: &mut [u16],
    effects: &mut [u16],
    operators: &mut [u16],
)
    ensures { Cleared initial.old twins.old formulas.old effects.old operators.old initial.new twins.new formulas.new effects.new operators.new }
{
    initial.fill(0);
    twins.fill(0);
    formulas.fill(0);
    effects.fill(0);
    operators.fill(0);
}

// What is lent beyond the counts all 0.
pub fn clear_behind(
    head: Head,
    initial: &mut [u8],
    twins: &mut [u16],
    formulas: &mut [u16],
    effects: &mut [u16],
    operators: &mut [u16],
)
    requires { AllRoom head initial.old twins.old formulas.old effects.old operators.old }
    ensures { ClearedBehind head initial.old twins.old formulas.old effects.old operators.old initial.new twins.new formulas.new effects.new operators.new }
{
    initial[head.variables as usize..].fill(0);
    twins[head.twins as usize..].fill(0);
    formulas[3 * head.formulas as usize..].fill(0);
    effects[3 * head.effects as usize..].fill(0);
    operators[OPERATOR_WORDS * head.operators as usize..].fill(0);
}
