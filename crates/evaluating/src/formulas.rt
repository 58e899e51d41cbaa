// The values of formulas in a state, bottom-up.
ghost use Rattle.std.specs.Prelude.{◌+◌, ◌≤◌, ◌<◌, ◌≡◌, eqb};
ghost use Rattle.task.specs.Semantics.{holds};
ghost use Rattle.task.specs.Table.{row_at, formula_kind};
ghost use Rattle.task.specs.Tree.{formula_of};
ghost use Rattle.task.specs.Inner.Values.{bit, row_value};
ghost use Rattle.task.specs.Kinds.{formula_number};
ghost use Rattle.evaluating.specs.Inner.Values.{joins, truth_table, rows_of, RowReady, Valuable, Valued};

use task::Table;
use task::kinds::FormulaKind;
use task::table_rows::row_at;

// Truth tables: bit 2x + y says what a kind makes of the bits x and y.
const FALSE: u8 = 0;

const TRUE: u8 = 15;

const NOT: u8 = 3;

const AND: u8 = 8;

const OR: u8 = 14;

const IMPLIES: u8 = 11;

const EQUIVALENT: u8 = 9;

// The truth table of a kind; a variable has none. Constant time.
#[tactic(auto, unfolding(crate::specs::Inner::Values::truth_table, crate::specs::Inner::Values::joins, task::specs::Table::formula_kind, task::specs::Inner::Values::bit))]
fn truth_table(kind: FormulaKind) -> u8
    ensures { result ≡ truth_table (formula_kind (formula_number kind)) }
{
    match kind {
        FormulaKind::False | FormulaKind::Variable => FALSE,
        FormulaKind::True => TRUE,
        FormulaKind::Not => NOT,
        FormulaKind::And => AND,
        FormulaKind::Or => OR,
        FormulaKind::Implies => IMPLIES,
        FormulaKind::Equivalent => EQUIVALENT,
    }
}

// What a kind makes of two bits, without a branch for their values. Constant time.
#[tactic(auto, using(crate::proofs::Valuing::table_tells))]
fn joined(kind: FormulaKind, x: u8, y: u8) -> u8
    requires { (x ≤ 1) × (y ≤ 1) }
    ensures { result ≡ bit (joins (formula_kind (formula_number kind)) (eqb x 1) (eqb y 1)) }
{
    let place = 2 * x + y;
    (truth_table(kind) >> place) % 2
}

// The value of row i, from the values of the rows below it. Constant time. Few arms: a branch for each kind that names formulas takes a third more.
fn value_of(formulas: &[u16], i: usize, state: &[u8], values: &[u8]) -> u8
    requires { RowReady formulas.now i state.now values.now }
    ensures { result ≡ bit (row_value state.now values.now (row_at formulas.now i)) }
{
    let row = row_at(Table::Formulas, formulas, i);
    let kind = FormulaKind::try_from(row.first).unwrap();
    let a = row.second as usize;
    let b = row.third as usize;
    match kind {
        FormulaKind::False | FormulaKind::True => joined(kind, 0, 0),
        FormulaKind::Variable => state[a],
        FormulaKind::Not
        | FormulaKind::And
        | FormulaKind::Or
        | FormulaKind::Implies
        | FormulaKind::Equivalent => joined(kind, values[a], values[b]),
    }
}

// The values of the rows from..to go to scratch, behind those of the rows below, which stand there already. Linear in `to - from`.
pub fn evaluate(formulas: &[u16], from: usize, to: usize, state: &[u8], scratch: &mut [u8])
    requires { Valuable formulas.now from to state.now scratch.old }
    ensures { Valued formulas.now to state.now scratch.old scratch.new }
{
    for i in from..to {
        let value = value_of(formulas, i, state, scratch);
        scratch[i] = value;
    }
}

// Whether a formula holds in the state; the values of the rows up to it stay at the front of scratch. Linear in those rows.
#[tactic(auto, using(task::proofs::Values::value_told))]
pub fn holds(formulas: &[u16], formula: usize, state: &[u8], scratch: &mut [u8]) -> bool
    requires { Valuable formulas.now 0 (formula + 1) state.now scratch.old }
    ensures value { result ≡ holds state.now (formula_of (rows_of (formula + 1) formulas.now) formula) }
    ensures valued { Valued formulas.now (formula + 1) state.now scratch.old scratch.new }
{
    evaluate(formulas, 0, formula + 1, state, scratch);
    scratch[formula] == 1
}
