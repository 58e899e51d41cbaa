// Rows of operators. How many words they have and which stands where is known here and in specs/Table alone.
ghost use Rattle.std.specs.Prelude.{◌+◌, ◌*◌, ◌≤◌, ◌≡◌, length};
ghost use Rattle.task.specs.Table.{operator_width, with_parts, operator_at};
ghost use Rattle.task.specs.Run.{charge_of};
ghost use Rattle.task.specs.Lending.{operator_of};
ghost use Rattle.task.specs.Inner.Stored.{operator_stored};

pub const OPERATOR_WORDS: usize = 4;

// What so many operators take as a task may have.
pub const MOST_OPERATOR_WORDS: usize = OPERATOR_WORDS * 256;

// An operator's row, word by word.
#[repr(C)]
#[derive(Clone, Copy, Debug, PartialEq, Eq)]
pub struct OperatorRecord {
    pub precondition: u16,
    pub effect: u16,
    pub cost: u16,
    pub percent: u16,
}

impl OperatorRecord {
    // What the operator is charged: cost x percent / 100, a half upwards. Constant time, as are all below.
    #[tactic(auto, unfolding(crate::specs::Run::charge_of))]
    pub fn charge(self) -> u32
        ensures { result ≡ charge_of (operator_of self) }
    {
        (self.cost as u32 * self.percent as u32 + 50) / 100
    }

    // The same operator with another precondition and effect.
    pub fn with_parts(self, precondition: u16, effect: u16) -> OperatorRecord
        ensures { operator_of result ≡ with_parts (operator_of self) precondition effect }
    {
        OperatorRecord {
            precondition,
            effect,
            ..self
        }
    }
}

// Operator o of a table.
#[tactic(auto, unfolding(crate::specs::Table::operator_at))]
pub fn operator_at(operators: &[u16], o: usize) -> OperatorRecord
    requires { operator_width * o + operator_width ≤ length operators.now }
    ensures { operator_of result ≡ operator_at operators.now o }
{
    let at = OPERATOR_WORDS * o;
    OperatorRecord {
        precondition: operators[at],
        effect: operators[at + 1],
        cost: operators[at + 2],
        percent: operators[at + 3],
    }
}

// Stores operator o.
pub fn store_operator(operators: &mut [u16], o: usize, row: OperatorRecord)
    requires { operator_width * o + operator_width ≤ length operators.old }
    ensures { operators.new ≡ operator_stored operators.old o (operator_of row) }
{
    let at = OPERATOR_WORDS * o;
    operators[at] = row.precondition;
    operators[at + 1] = row.effect;
    operators[at + 2] = row.cost;
    operators[at + 3] = row.percent;
}
