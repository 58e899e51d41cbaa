// Rows of the formula table.
ghost use Rattle.std.specs.Prelude.{◌≡◌, ◌+◌, ◌*◌, ◌≤◌, ◌<◌, length};
ghost use Rattle.task.specs.Table.{row_at};
ghost use Rattle.task.specs.Kinds.{formula_number, effect_number};
ghost use Rattle.normal_form.specs.Builder.{same_row};
ghost use Rattle.formula_builder.specs.Inner.Index.{Searchable, Found, three, appended, Empty, FirstTwo};
ghost use Rattle.formula_builder.specs.Inner.Held.{row_of};

use crate::Words;
use crate::index::{head_word, key, link_word};
use task::kinds::{EffectKind, FormulaKind};

// Row i of a table.
#[tactic(auto, unfolding(task::specs::Table::row_at))]
pub fn read_row(table: &[u16], i: usize) -> Words
    requires { 3 * i + 3 ≤ length table.now }
    ensures { row_of result ≡ row_at table.now i }
{
    let k = 3 * i;
    Words {
        kind: table[k],
        a: table[k + 1],
        b: table[k + 2],
    }
}

impl Words {
    // The kind of a formula's row, and of an effect's.
    pub fn formula_kind(self) -> FormulaKind
        requires { self.kind < 8 }
        ensures { formula_number result ≡ self.kind }
    {
        FormulaKind::try_from(self.kind).unwrap()
    }

    pub fn effect_kind(self) -> EffectKind
        requires { self.kind < 5 }
        ensures { effect_number result ≡ self.kind }
    {
        EffectKind::try_from(self.kind).unwrap()
    }
}

// Whether row i has these three words. Rows under one head mostly differ in what they name: that is looked at first, since a branch that goes
// either way for every other row costs more than the comparison.
#[tactic(auto, unfolding(normal_form::specs::Builder::same_row))]
fn same(table: &[u16], i: usize, r: Words) -> bool
    requires { 3 * i + 3 ≤ length table.now }
    ensures { result ≡ same_row (row_at table.now i) (row_of r) }
{
    let t = read_row(table, i);
    t.b == r.b && t.a == r.a && t.kind == r.kind
}

// The word that names the row with these words; if no row has them, the word, now 0, that is to name it. The row that is compared after d
// others has the first d bits of this one's key, of 27: so 28 are compared at the most whatever the task (cost alone, not proved), and none or 1 as a rule.
pub fn find_word(table: &[u16], most: usize, r: Words) -> usize
    requires { Searchable most table.now }
    ensures { Found most table.now (row_of r) result }
{
    let mut bits = key(r);
    let mut p = head_word(most, bits);
    let mut s = table[p] as usize;
    while s > 0 {
        let i = s - 1;
        if same(table, i, r) {
            return p;
        }
        p = link_word(most, i, bits);
        bits /= 2;
        s = table[p] as usize;
    }
    p
}

// Stores a row behind n rows.
fn store_row(table: &mut [u16], n: usize, r: Words)
    requires { 3 * n + 3 ≤ length table.old }
    ensures { table.new ≡ three table.old n (row_of r) }
{
    let k = 3 * n;
    table[k] = r.kind;
    table[k + 1] = r.a;
    table[k + 2] = r.b;
}

// Stores a row behind n rows, and names it in word p. Constant time.
pub fn append_row(table: &mut [u16], n: usize, r: Words, p: usize)
    requires { (n < 4096) × (3 * n + 3 ≤ length table.old) × (p < length table.old) }
    ensures { table.new ≡ appended table.old n (row_of r) p }
{
    store_row(table, n, r);
    table[p] = (n + 1) as u16;
}

// False and true, the first two rows.
pub fn first_rows(table: &mut [u16], most: usize)
    requires { Empty most table.old }
    ensures { FirstTwo most table.old table.new }
{
    let f = Words {
        kind: FormulaKind::False as u16,
        a: 0,
        b: 0,
    };
    let p = find_word(table, most, f);
    append_row(table, 0, f, p);
    let t = Words {
        kind: FormulaKind::True as u16,
        a: 0,
        b: 0,
    };
    let q = find_word(table, most, t);
    append_row(table, 1, t, q);
}
