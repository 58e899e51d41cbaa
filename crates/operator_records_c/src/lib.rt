// The calls of crate operator_records for callers outside Rattle, under their plain names.
#![tactic(auto)]

ghost use Rattle.std.specs.Prelude.{◌≡◌};
ghost use Rattle.operator_records.specs.Change.{change, ChangeGives};
ghost use Rattle.operator_records.specs.Rows.{row_record, with_record};

use operator_records::OperatorRecord;

// Changes the percent of the operator with that number, and no other record; a refusal changes nothing. Answers 0, or the refusal's number.
#[unsafe(no_mangle)]
pub extern "C" fn set_percent(records: &mut [OperatorRecord], number: u16, percent: u16) -> u16
    ensures { ChangeGives (change records.old number percent) result records.new }
{
    match operator_records::change::set_percent(records, number, percent) {
        Ok(()) => 0,
        Err(refusal) => refusal.number(),
    }
}

// The record of row `number` of an operator table; all words 0 where the table does not hold that row.
#[unsafe(no_mangle)]
pub extern "C" fn record_of(operators: &[u16], number: usize) -> OperatorRecord
    ensures { result ≡ row_record operators.now number }
{
    operator_records::row_records::record_of(operators, number)
}

// Stores a record as row `number` of an operator table; nothing changes where the table does not hold that row.
#[unsafe(no_mangle)]
pub extern "C" fn store_record(operators: &mut [u16], number: usize, row: OperatorRecord)
    ensures { operators.new ≡ with_record operators.old number row }
{
    operator_records::row_records::store_record(operators, number, row)
}
