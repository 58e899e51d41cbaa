// Tables that a file is read through.
ghost use Rattle.std.specs.Prelude.{◌≡◌, replicate};
ghost use Rattle.task_file.specs.Outcome.{lengths};
ghost use Rattle.entry_tables.specs.Inner.Answers.{ReadInto};

use task::operator_rows::{MOST_OPERATOR_WORDS, OPERATOR_WORDS};
use task::refusal::Refusal;
use task::tables::Tables;

// The sizes of small tables, which are tried first on a short file: 64 twins, 128 rows of each kind. 3 KiB with the initial state.
pub const SMALL_TWINS: usize = 64;

pub const SMALL_ROW_WORDS: usize = 3 * 128;

pub const SMALL_OPERATOR_WORDS: usize = OPERATOR_WORDS * 128;

// The sizes of tables with room for every task: 51 KiB.
pub const FULL_TWINS: usize = 256;

pub const FULL_ROW_WORDS: usize = 3 * 4096;

pub const FULL_OPERATOR_WORDS: usize = MOST_OPERATOR_WORDS;

// Tables of these sizes; the formulas' and the effects' are of one size.
#[derive(Drop)]
pub struct OwnTables<const TWINS: usize, const WORDS: usize, const OPERATORS: usize> {
    initial: [u8; 512],
    twins: [u16; TWINS],
    formulas: [u16; WORDS],
    effects: [u16; WORDS],
    operators: [u16; OPERATORS],
}

impl<const TWINS: usize, const WORDS: usize, const OPERATORS: usize> OwnTables<
    TWINS,
    WORDS,
    OPERATORS,
> {
    // All 0. Linear in the sizes.
    pub fn new() -> OwnTables<TWINS, WORDS, OPERATORS>
        ensures initial { result.initial ≡ replicate 512 0 }
        ensures twins { result.twins ≡ replicate TWINS 0 }
        ensures formulas { result.formulas ≡ replicate WORDS 0 }
        ensures effects { result.effects ≡ replicate WORDS 0 }
        ensures operators { result.operators ≡ replicate OPERATORS 0 }
    {
        OwnTables {
            initial: [0; 512],
            twins: [0; TWINS],
            formulas: [0; WORDS],
            effects: [0; WORDS],
            operators: [0; OPERATORS],
        }
    }

    // Reads a task file through the tables. One pass over the file and one over the tables.
    pub fn read(&mut self, file: &[u8]) -> Result<Tables<'_>, Refusal>
        ensures { ReadInto (lengths 512 TWINS WORDS WORDS OPERATORS) file.now result }
    {
        let head = task_file::read::read(
            file,
            &mut self.initial,
            &mut self.twins,
            &mut self.formulas,
            &mut self.effects,
            &mut self.operators,
        )?;
        Ok(Tables {
            head,
            initial: &self.initial,
            twins: &self.twins,
            formulas: &self.formulas,
            effects: &self.effects,
            operators: &self.operators,
        })
    }
}
