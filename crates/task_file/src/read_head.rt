// The head of a file.
ghost use Rattle.std.specs.Prelude.{◌≡◌};
ghost use Rattle.file_format.specs.Parse.{next};
ghost use Rattle.file_format.specs.Reading.{head_read, head_kept};
ghost use Rattle.task.specs.Lending.{table_lengths};
ghost use Rattle.task_file.specs.Inner.Answers.{parsed_as};

use crate::reader::Reader;
use task::Head;
use task::counts::{counts_kept, goal_kept};
use task::lengths::has_room;
use task::refusal::Refusal;
use task::tables::Lengths;

impl Reader<'_> {
    // The six fields of the head. Constant time, as is the one below.
    #[tactic(auto, using(crate::proofs::Ways::returned_as), unfolding(file_format::specs::Reading::head_read, file_format::specs::Parse::mapped_read, file_format::specs::Parse::next, file_format::specs::Parse::kept))]
    fn head(&mut self) -> Result<Head, Refusal>
        ensures { parsed_as result self.new ≡ head_read self.old }
    {
        let map = self.byte()?;
        if 64 <= map {
            return Err(Refusal::SpareBit);
        }
        let [variables, twins, formulas, effects, operators, goal] = self.fields([0; 6], map)?;
        Ok(Head {
            variables,
            twins,
            formulas,
            effects,
            operators,
            goal,
        })
    }

    // The head, if it keeps its rules and lent tables of these lengths have room.
    #[tactic(auto, using(crate::proofs::Ways::returned_as), unfolding(file_format::specs::Reading::head_kept, file_format::specs::Parse::next, file_format::specs::Parse::kept))]
    pub fn kept_head(&mut self, lengths: Lengths) -> Result<Head, Refusal>
        ensures { parsed_as result self.new ≡ next (head_read self.old) (head_kept (table_lengths lengths)) }
    {
        let head = self.head()?;
        if !counts_kept(head) {
            return Err(Refusal::Counts);
        }
        if !goal_kept(head) {
            return Err(Refusal::Goal);
        }
        if !has_room(lengths, head) {
            return Err(Refusal::ShortTable);
        }
        Ok(head)
    }
}
