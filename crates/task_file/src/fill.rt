// Filling the tables of a task from its file.
ghost use Rattle.std.specs.Prelude.{◌≡◌};
ghost use Rattle.task_file.specs.Inner.Answers.{left_as};
ghost use Rattle.task_file.specs.Inner.Filling.{RowsRoom, rows_in, rows_behind, AllRoom, all_in, all_behind};

use crate::reader::Reader;
use task::operator_rows::OPERATOR_WORDS;
use task::refusal::Refusal;
use task::{Head, Table};

impl Reader<'_> {
    // The three tables of rows, one after the other, into the fronts. Linear in their counts.
    #[tactic(auto, using(crate::proofs::Ways::returned_left, crate::proofs::Ways::left_last), unfolding(crate::specs::Inner::Filling::rows_behind, file_format::specs::Parse::next))]
    fn all_rows(
        &mut self,
        head: Head,
        formulas: &mut [u16],
        effects: &mut [u16],
        operators: &mut [u16],
    ) -> Result<(), Refusal>
        requires { RowsRoom head formulas.old effects.old operators.old }
        ensures { left_as (rows_in head formulas.new effects.new operators.new) result self.new ≡ rows_behind head self.old }
    {
        let f = head.formulas as usize;
        let e = head.effects as usize;
        let o = head.operators as usize;
        self.rows(Table::Formulas, head, f, &mut formulas[..3 * f])?;
        self.rows(Table::Effects, head, e, &mut effects[..3 * e])?;
        self.rows(
            Table::Operators,
            head,
            o,
            &mut operators[..OPERATOR_WORDS * o],
        )
    }

    // All that stands behind the head, into the fronts. Linear in the counts.
    #[tactic(auto, using(crate::proofs::Ways::returned_left, crate::proofs::Ways::left_last), unfolding(crate::specs::Inner::Filling::all_behind, file_format::specs::Parse::next))]
    pub fn tables(
        &mut self,
        head: Head,
        initial: &mut [u8],
        twins: &mut [u16],
        formulas: &mut [u16],
        effects: &mut [u16],
        operators: &mut [u16],
    ) -> Result<(), Refusal>
        requires { AllRoom head initial.old twins.old formulas.old effects.old operators.old }
        ensures { left_as (all_in head initial.new twins.new formulas.new effects.new operators.new) result self.new ≡ all_behind head self.old }
    {
        let v = head.variables as usize;
        let w = head.twins as usize;
        self.state(&mut initial[..v])?;
        self.twins(v - w, &mut twins[..w])?;
        self.all_rows(head, formulas, effects, operators)
    }
}
