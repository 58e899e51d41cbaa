// What each effect does in one state, as a word of atoms: bit v says that it sets variable v, bit 16 + v that it clears it.
ghost use Rattle.std.specs.Prelude.{◌≡◌};
ghost use Rattle.task.specs.Table.{row_at};
ghost use Rattle.state_codes.specs.Inner.Masks.{next_code, row_mask, RowMasks, Maskable, RowMaskable};

use task::Table;
use task::kinds::EffectKind;
use task::table_rows::row_at;

// The word of row i, from those of the rows below it. Constant time.
fn mask_of(effects: &[u16], i: usize, values: &[u8], masks: &[u32]) -> u32
    requires { RowMaskable effects.now i values.now masks.now }
    ensures { result ≡ row_mask values.now masks.now (row_at effects.now i) }
{
    let row = row_at(Table::Effects, effects, i);
    let kind = EffectKind::try_from(row.first).unwrap();
    let a = row.second as usize;
    let b = row.third as usize;
    match kind {
        EffectKind::Empty => 0,
        EffectKind::Set => 1 << a,
        EffectKind::Clear => 1 << (16 + a),
        EffectKind::Both => masks[a] | masks[b],
        EffectKind::Under => if values[a] == 0 { 0 } else { masks[b] },
    }
}

// The words of all rows, upwards. Linear in the rows.
pub fn find_masks(effects: &[u16], rows: usize, values: &[u8], masks: &mut [u32])
    requires { Maskable effects.now rows values.now masks.old }
    ensures { RowMasks effects.now rows values.now masks.new }
{
    for i in 0..rows {
        let mask = mask_of(effects, i, values, masks);
        masks[i] = mask;
    }
}

// The code after an effect: its clears, then its sets, so that a set wins. Constant time.
#[tactic(auto, unfolding(crate::specs::Inner::Masks::next_code))]
pub fn next_code(code: usize, mask: u32) -> usize
    ensures { result ≡ next_code code mask }
{
    let clears = (mask >> 16) as usize;
    let sets = (mask % 65536) as usize;
    (code ^ (code & clears)) | sets
}
