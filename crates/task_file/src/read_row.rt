// Rows, as their words.
ghost use Rattle.std.specs.Prelude.{◌≡◌};
ghost use Rattle.task_file.specs.Inner.Answers.{words_as, row_as, row_of};
ghost use Rattle.task_file.specs.Inner.Tables.{row_words_read, kept_words_read};

use crate::reader::Reader;
use task::refusal::Refusal;
use task::rows::{check_operator, effect_kept, formula_kept};
use task::{DEFAULT_PERCENT, Head, Table, TableRow};

// The words of a row, or the refusal. An enum of its own, and no Result: the scope names this form, taken apart by `let .. else`.
#[derive(Clone, Copy, Debug, PartialEq, Eq)]
pub enum Row {
    Words(TableRow),
    NoRow(Refusal),
}

impl From<Result<TableRow, Refusal>> for Row {
    ghost from_gives = { λ answer row. row ≡ row_of answer };

    fn from(answer: Result<TableRow, Refusal>) -> Row {
        match answer {
            Ok(row) => Row::Words(row),
            Err(refusal) => Row::NoRow(refusal),
        }
    }
}

impl Reader<'_> {
    // A formula's or an effect's row, without its own number. Constant time, as are all below.
    #[tactic(auto, using(crate::proofs::Ways::returned_words), unfolding(file_format::specs::Reading::row_read, file_format::specs::Parse::mapped_read, file_format::specs::Parse::next, file_format::specs::Parse::kept, task::specs::Words::row_words))]
    fn three(&mut self) -> Result<TableRow, Refusal>
        ensures { words_as Table.Formulas result self.new ≡ row_words_read Table.Formulas self.old }
    {
        let map = self.byte()?;
        if map / 4 % 4 != 0 {
            return Err(Refusal::SpareBit);
        }
        let [second, third] = self.fields([0; 2], map)?;
        Ok(TableRow {
            first: u16::from(map / 16),
            second,
            third,
            fourth: 0,
        })
    }

    // An operator's row, without its own number.
    #[tactic(auto, using(crate::proofs::Ways::returned_words), unfolding(file_format::specs::Reading::operator_fields_read, file_format::specs::Parse::mapped_read, file_format::specs::Parse::next, file_format::specs::Parse::kept, task::specs::Words::operator_row_words))]
    fn four(&mut self) -> Result<TableRow, Refusal>
        ensures { words_as Table.Operators result self.new ≡ row_words_read Table.Operators self.old }
    {
        let map = self.byte()?;
        if 16 <= map {
            return Err(Refusal::SpareBit);
        }
        let [first, second, third, fourth] = self.fields([0, 0, 0, DEFAULT_PERCENT], map)?;
        Ok(TableRow {
            first,
            second,
            third,
            fourth,
        })
    }

    // Formula row i: its words, if they keep their rule.
    #[tactic(auto, using(crate::proofs::Ways::returned_words), unfolding(file_format::specs::Reading::formula_read, file_format::specs::Parse::next, file_format::specs::Parse::kept, task::specs::Check::formula_kept, task::specs::Words::row_words))]
    fn formula(&mut self, head: Head, i: usize) -> Result<TableRow, Refusal>
        ensures { words_as Table.Formulas result self.new ≡ kept_words_read Table.Formulas head i self.old }
    {
        let row = self.three()?;
        let variables = head.variables as usize;
        if !formula_kept(variables, i, row.first, row.second, row.third) {
            return Err(Refusal::Formula);
        }
        Ok(row)
    }

    // Effect row i: its words, if they keep their rule.
    #[tactic(auto, using(crate::proofs::Ways::returned_words), unfolding(file_format::specs::Reading::effect_read, file_format::specs::Parse::next, file_format::specs::Parse::kept, task::specs::Check::effect_kept, task::specs::Words::row_words))]
    fn effect(&mut self, head: Head, i: usize) -> Result<TableRow, Refusal>
        ensures { words_as Table.Effects result self.new ≡ kept_words_read Table.Effects head i self.old }
    {
        let row = self.three()?;
        let variables = head.variables as usize;
        let formulas = head.formulas as usize;
        if !effect_kept(variables, formulas, i, row.first, row.second, row.third) {
            return Err(Refusal::Effect);
        }
        Ok(row)
    }

    // Operator row i: its words, if they keep their rules: 12, then 24.
    #[tactic(auto, using(crate::proofs::Ways::returned_words), unfolding(file_format::specs::Reading::operator_read, file_format::specs::Parse::next, file_format::specs::Parse::kept, task::specs::Words::operator_row_words))]
    fn operator(&mut self, head: Head, i: usize) -> Result<TableRow, Refusal>
        ensures { words_as Table.Operators result self.new ≡ kept_words_read Table.Operators head i self.old }
    {
        let row = self.four()?;
        check_operator(head.formulas as usize, head.effects as usize, row.into())?;
        Ok(row)
    }

    // Row i of a table: its words, if they keep their rule. The table is asked for here alone, so that a loop over rows compiles to three loops
    // without the question.
    pub fn row(&mut self, table: Table, head: Head, i: usize) -> Row
        ensures { row_as table result self.new ≡ kept_words_read table head i self.old }
    {
        match table {
            Table::Formulas => self.formula(head, i).into(),
            Table::Effects => self.effect(head, i).into(),
            Table::Operators => self.operator(head, i).into(),
        }
    }
}
