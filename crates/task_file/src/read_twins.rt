// The originals of the twins.
ghost use Rattle.std.specs.Prelude.{◌≡◌, ◌≤◌, length};
ghost use Rattle.file_format.specs.Parse.{table_read};
ghost use Rattle.file_format.specs.Reading.{twin_read};
ghost use Rattle.task_file.specs.Inner.Answers.{left_as};

use crate::reader::Reader;
use task::refusal::Refusal;

impl Reader<'_> {
    // The originals, as `twins`. Linear: a byte for each variable tells whether a row has named it.
    pub fn twins(&mut self, bound: usize, twins: &mut [u16]) -> Result<(), Refusal>
        requires { bound ≤ 512 }
        ensures { left_as twins.new result self.new ≡ table_read (twin_read bound) (length twins.old) self.old }
    {
        let mut named = [0u8; 512];
        for twin in twins {
            *twin = self.word()?;
            let original = *twin as usize;
            if bound <= original || named[original] != 0 {
                return Err(Refusal::Twin);
            }
            named[original] = 1;
        }
        Ok(())
    }
}
