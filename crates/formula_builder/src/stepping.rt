// The steps of a builder: rows, joins of two rows, and their folding, and twins.
ghost use Rattle.std.specs.Prelude.{◌≡◌, ◌<◌};
ghost use Rattle.normal_form.specs.Builder.{row as row-built, variable_row, twin_row, join as join-built, image_of_false as false_row, image_of_true as true_row, join_kind};
ghost use Rattle.formula_builder.specs.Inner.Held.{row_of, side, RowsReady, BuilderReady, JoinReady, Built, Same, SameTwins};

use crate::rows::{append_row, find_word};
use crate::{Builder, NoRoom, Words};
use task::kinds::FormulaKind;

// The row of false; negated, of true.
pub fn falsity(or: bool) -> u16
    ensures { result ≡ false_row (side or) }
{
    if or { 1 } else { 0 }
}

// The row of true; negated, of false.
pub fn truth(or: bool) -> u16
    ensures { result ≡ true_row (side or) }
{
    if or { 0 } else { 1 }
}

// The kind of the join.
fn join_kind(or: bool) -> u16
    ensures { result ≡ join_kind (side or) }
{
    if or {
        FormulaKind::Or as u16
    } else {
        FormulaKind::And as u16
    }
}

impl Builder<'_> {
    // The row with these words, whether it stands or is appended. Costs what finding it does.
    pub fn row(&mut self, words: Words) -> Result<u16, NoRoom>
        requires { RowsReady self.old.frame.rows self.old.rows self.old.table.now }
        ensures built { BuilderReady self.old → Built (row-built (row_of words)) self.old self.new result }
        ensures same { Same self.old self.new }
        ensures twins { SameTwins self.old self.new }
    {
        let most = self.frame.rows;
        let table = &mut *self.table;
        let p = find_word(table, most, words);
        if let Some(k) = table[p].checked_sub(1) {
            return Ok(k);
        }
        let n = self.rows;
        if n == most {
            return Err(NoRoom);
        }
        append_row(table, n, words, p);
        self.rows = n + 1;
        Ok(n as u16)
    }

    // The row of a variable.
    #[tactic(auto, unfolding(normal_form::specs::Builder::variable_row))]
    fn variable_row(&mut self, v: u16) -> Result<u16, NoRoom>
        requires { BuilderReady self.old }
        ensures built { Built (variable_row v) self.old self.new result }
        ensures twins { SameTwins self.old self.new }
    {
        self.row(Words {
            kind: FormulaKind::Variable as u16,
            a: v,
            b: 0,
        })
    }

    // The join of rows l and r, "and" or "or". Costs what putting the row does.
    pub fn join(&mut self, or: bool, l: u16, r: u16) -> Result<u16, NoRoom>
        requires { JoinReady self.old.frame.rows self.old.rows self.old.table.now l r }
        ensures built { BuilderReady self.old → Built (join-built (side or) l r) self.old self.new result }
        ensures same { Same self.old self.new }
        ensures twins { SameTwins self.old self.new }
    {
        let none = falsity(or);
        let all = truth(or);
        if l == none || r == none {
            return Ok(none);
        }
        if l == all {
            return Ok(r);
        }
        if r == all {
            return Ok(l);
        }
        let kind = join_kind(or);
        self.row(Words { kind, a: l, b: r })
    }

    // The row of v's twin, which gets the next variable number when first met. Behind the rows' index a word for each variable names its twin's row:
    // a twin that stands is not searched for, and a new one costs what putting its row does.
    pub fn twin_row(&mut self, v: u16) -> Result<u16, NoRoom>
        requires { BuilderReady self.old × (v < self.old.frame.variables) }
        ensures { Built (twin_row self.old.frame.variables v) self.old self.new result }
    {
        let p = 9 * self.frame.rows + v as usize;
        if let Some(k) = self.table[p].checked_sub(1) {
            return Ok(k);
        }
        let w = self.twins;
        if w == self.frame.twins {
            return Err(NoRoom);
        }
        let k = self.variable_row((self.frame.variables + w) as u16)?;
        self.originals[w] = v;
        self.twins = w + 1;
        self.table[p] = k + 1;
        Ok(k)
    }
}
