// What an exported call is handed as numbers, and words that it tells through a lent buffer.
ghost use Rattle.std.specs.Prelude.{◌≡◌};
ghost use Rattle.task.specs.Lending.{lent_tables};
ghost use Rattle.task.specs.Refused.{told};
ghost use Rattle.task.specs.Table.{lent};
ghost use Rattle.test_calls.specs.Buffers.{told_words, head_words};

use task::Head;
use task::copying::copy_all;
use task::refusal::Refusal;
use task::tables::Tables;

// The head of a refused call.
pub const NO_HEAD: Head = Head {
    variables: 0,
    twins: 0,
    formulas: 0,
    effects: 0,
    operators: 0,
    goal: 0,
};

// Lent tables, with the head as six numbers.
pub fn tables<'a>(
    variables: u16,
    twin_count: u16,
    formula_count: u16,
    effect_count: u16,
    operator_count: u16,
    goal: u16,
    initial: &'a [u8],
    twins: &'a [u16],
    formulas: &'a [u16],
    effects: &'a [u16],
    operators: &'a [u16],
) -> Tables<'a>
    ensures { lent_tables result ≡ lent (record { variables = variables; twins = twin_count; formulas = formula_count; effects = effect_count; operators = operator_count; goal = goal }) initial.now twins.now formulas.now effects.now operators.now }
{
    Tables {
        head: Head {
            variables,
            twins: twin_count,
            formulas: formula_count,
            effects: effect_count,
            operators: operator_count,
            goal,
        },
        initial,
        twins,
        formulas,
        effects,
        operators,
    }
}

// The number of an answer: 0, or its refusal's.
pub fn number<T: Drop>(answer: Result<T, Refusal>) -> u16
    ensures { result ≡ told answer }
{
    match answer {
        Ok(_) => 0,
        Err(refusal) => refusal.number(),
    }
}

// The words, if the buffer has just as many.
#[tactic(auto, unfolding(crate::specs::Buffers::told_words))]
pub fn tell<T: Copy>(buffer: &mut [T], words: &[T])
    ensures { buffer.new ≡ told_words words.now buffer.old }
{
    if buffer.len() == words.len() {
        copy_all(buffer, words);
    }
}

// A head's six words, V W F E O goal, if the buffer has just six.
#[tactic(auto, unfolding(crate::specs::Buffers::head_words))]
pub fn tell_head(buffer: &mut [u16], head: Head)
    ensures { buffer.new ≡ told_words (head_words head) buffer.old }
{
    let words = [
        head.variables,
        head.twins,
        head.formulas,
        head.effects,
        head.operators,
        head.goal,
    ];
    tell(buffer, &words);
}
