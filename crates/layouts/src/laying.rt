// The tables of a task, laid out as bytes.
ghost use Rattle.std.specs.Prelude.{length};
ghost use Rattle.task.specs.Lending.{lent_tables};
ghost use Rattle.task.specs.Refused.{told};
ghost use Rattle.task_writer.specs.Inner.Putting.{Put};
ghost use Rattle.layouts.specs.Layout.{laid, Lays};
ghost use Rattle.layouts.specs.Inner.Giving.{LayIn, flat_bytes};

use task::operator_rows::OPERATOR_WORDS;
use task::refusal::Refusal;
use task::tables::Tables;
use task_writer::put::put_bytes;
use task_writer::put_tables::put_words;

// The layout, from the front; what does not fit is only counted. Linear in the counts.
fn put_tables(out: &mut [u8], tables: &Tables<'_>) -> usize
    requires { LayIn (lent_tables tables.now) }
    ensures { Put (flat_bytes (lent_tables tables.now)) 0 result out.old out.new }
{
    let head = tables.head;
    let words = [
        head.variables,
        head.twins,
        head.formulas,
        head.effects,
        head.operators,
        head.goal,
    ];
    let formula_words = 3 * (head.formulas as usize);
    let effect_words = 3 * (head.effects as usize);
    let operator_words = OPERATOR_WORDS * (head.operators as usize);
    let to_state = put_words(out, 0, &words);
    let to_twins = put_bytes(out, to_state, &tables.initial[..head.variables as usize]);
    let to_formulas = put_words(out, to_twins, &tables.twins[..head.twins as usize]);
    let to_effects = put_words(out, to_formulas, &tables.formulas[..formula_words]);
    let to_operators = put_words(out, to_effects, &tables.effects[..effect_words]);
    put_words(out, to_operators, &tables.operators[..operator_words])
}

// The layout, and 0 past it; 20 and all 0 if it does not fit. Linear in the counts and the output.
pub fn lay(tables: &Tables<'_>, out: &mut [u8]) -> Result<(), Refusal>
    requires { LayIn (lent_tables tables.now) }
    ensures { Lays (laid (flat_bytes (lent_tables tables.now)) (length out.old)) (told result) out.new }
{
    out.fill(0);
    let end = put_tables(out, tables);
    if out.len() < end {
        out.fill(0);
        return Err(Refusal::ShortOutput);
    }
    Ok(())
}
