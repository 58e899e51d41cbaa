// Lent tables, cleared.
ghost use Rattle.compiler.specs.Inner.Fills.{Blanked};
ghost use Rattle.compiler.specs.Tables.{tables};

// All 0. Linear in what is lent.
pub fn clear_all(
    values: &mut [u8],
    originals: &mut [u16],
    table: &mut [u16],
    out: &mut [u16],
    written: &mut [u16],
    scratch: &mut [u16],
)
    ensures { Blanked (tables values.old originals.old table.old out.old written.old scratch.old) (tables values.new originals.new table.new out.new written.new scratch.new) }
{
    values.fill(0);
    originals.fill(0);
    table.fill(0);
    out.fill(0);
    written.fill(0);
    scratch.fill(0);
}
