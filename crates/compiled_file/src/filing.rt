// A task's file and its length, into two outputs.
ghost use Rattle.std.specs.Prelude.{◌≡◌, length};
ghost use Rattle.task.specs.Table.{task_of};
ghost use Rattle.task.specs.Check.{refusal};
ghost use Rattle.task.specs.Lending.{lent_tables};
ghost use Rattle.task.specs.Refused.{number_of, told};
ghost use Rattle.file_format.specs.Bytes.{file_of};
ghost use Rattle.compiled_file.specs.Filed.{no_file, filed, CompileGives};

use task::refusal::Refusal;
use task::tables::Tables;
use task_writer::put::put_bytes;
use task_writer::write::write;

// A refusal, and both outputs all 0. Linear in them.
pub fn refuse(refusal: Refusal, out: &mut [u8], res: &mut [u8]) -> Result<(), Refusal>
    ensures { CompileGives (no_file (number_of refusal) (length out.old) (length res.old)) (told result) out.new res.new }
{
    out.fill(0);
    res.fill(0);
    Err(refusal)
}

// The file of tables that pass, and its length; 20 and all 0 if one of the two does not fit. One pass over the tables.
pub fn give_file(tables: &Tables<'_>, out: &mut [u8], res: &mut [u8]) -> Result<(), Refusal>
    requires { refusal (lent_tables tables.now) ≡ 0 }
    ensures { CompileGives (filed (file_of (task_of (lent_tables tables.now))) (length out.old) (length res.old)) (told result) out.new res.new }
{
    if res.len() < 4 {
        return refuse(Refusal::ShortOutput, out, res);
    }
    res.fill(0);
    let size = write(tables, out)?;
    let bytes = size.to_le_bytes();
    put_bytes(res, 0, &bytes[..4]);
    Ok(())
}
