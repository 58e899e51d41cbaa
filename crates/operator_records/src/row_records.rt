// Rows of an operator table as records, and records as rows. Constant time, each.
ghost use Rattle.std.specs.Prelude.{◌≡◌};
ghost use Rattle.operator_records.specs.Rows.{row_record, with_record};

use crate::OperatorRecord;
use task::operator_rows::{OPERATOR_WORDS, operator_at, store_operator};

const NO_RECORD: OperatorRecord = OperatorRecord {
    precondition: 0,
    effect: 0,
    cost: 0,
    percent: 0,
};

// The record of row `number` of an operator table; all words 0 where the table does not hold that row.
#[tactic(auto, using(crate::proofs::Rows::record_there, crate::proofs::Rows::record_past))]
pub fn record_of(operators: &[u16], number: usize) -> OperatorRecord
    ensures { result ≡ row_record operators.now number }
{
    if number < operators.len() / OPERATOR_WORDS {
        operator_at(operators, number)
    } else {
        NO_RECORD
    }
}

// Stores a record as row `number` of an operator table; nothing changes where the table does not hold that row.
pub fn store_record(operators: &mut [u16], number: usize, row: OperatorRecord)
    ensures { operators.new ≡ with_record operators.old number row }
{
    if number < operators.len() / OPERATOR_WORDS {
        store_operator(operators, number, row);
    }
}
