// Operator records (02, K2): one percent changed in a lent list, and ways between a table's rows and records. Crate operator_records_c exports the
// calls under their plain names, so that a caller outside Rattle has them as well.
#![tactic(auto)]

pub mod change;
pub mod row_records;

pub use task::operator_rows::OperatorRecord;
