// The two memoised functions: image and negated image call each other, on row numbers that fall. What they share, the step of a row kind by kind,
// takes the side as a flag. Each row is built at most once for a side.
ghost use Rattle.normal_form.specs.Builder.{plain, negated};
ghost use Rattle.formula_builder.specs.Inner.Held.{side};
ghost use Rattle.images.specs.Inner.Images.{image_by, pair_by, equivalent_by, AsksImage, AsksOperands, Imaged};

use crate::ImageBuilder;
use crate::literals::literal;
use formula_builder::{NoRoom, falsity, read_row, truth};
use task::kinds::FormulaKind;

impl ImageBuilder<'_, '_> {
    // The image of formula i: constant time if the memo has it, else what building it costs.
    #[cycle(images)]
    pub fn image(&mut self, i: usize) -> Result<u16, NoRoom>
        requires { AsksImage self.old i }
        ensures { Imaged (image_by self.old plain i) self.old self.new result }
    {
        if let Some(row) = self.scratch[i].checked_sub(1) {
            return Ok(row);
        }
        self.build(i, false)
    }

    // The negated image of formula i, likewise.
    #[cycle(images)]
    pub fn negated_image(&mut self, i: usize) -> Result<u16, NoRoom>
        requires { AsksImage self.old i }
        ensures { Imaged (image_by self.old negated i) self.old self.new result }
    {
        if let Some(row) = self.scratch[self.builder.frame.formulas + i].checked_sub(1) {
            return Ok(row);
        }
        self.build(i, true)
    }

    // Formula i, built on a side and noted in the memo.
    #[cycle(images)]
    fn build(&mut self, i: usize, not: bool) -> Result<u16, NoRoom>
        requires { AsksImage self.old i }
        ensures { Imaged (image_by self.old (side not) i) self.old self.new result }
    {
        let row = self.step(i, not)?;
        let k = self.word_of(i, not);
        self.scratch[k] = row + 1;
        Ok(row)
    }

    // The step of row i, by its kind: "not" changes sides, and so does the left of "implies"; "and" joins by "or" if negated, the others if not.
    #[cycle(images)]
    fn step(&mut self, i: usize, not: bool) -> Result<u16, NoRoom>
        requires { AsksImage self.old i }
        ensures { Imaged (image_by self.old (side not) i) self.old self.new result }
    {
        let w = read_row(self.formulas, i);
        let (left, or) = match w.formula_kind() {
            FormulaKind::False => return Ok(falsity(not)),
            FormulaKind::True => return Ok(truth(not)),
            FormulaKind::Variable => return literal(&mut self.builder, w, not),
            FormulaKind::Not => return self.sided(w.a as usize, !not),
            FormulaKind::And => (not, not),
            FormulaKind::Or => (not, !not),
            FormulaKind::Implies => (!not, !not),
            FormulaKind::Equivalent => return self.equivalent(i, not),
        };
        self.pair(i, left, not, or)
    }

    // Row i as (a and b) or (not a and not b); negated, (a and not b) or (not a and b).
    #[cycle(images)]
    fn equivalent(&mut self, i: usize, not: bool) -> Result<u16, NoRoom>
        requires { AsksOperands self.old i }
        ensures { Imaged (equivalent_by self.old i not) self.old self.new result }
    {
        let w = read_row(self.formulas, i);
        let a = w.a as usize;
        let b = w.b as usize;
        let x = self.image(a)?;
        let y = self.sided(b, not)?;
        let l = self.builder.join(false, x, y)?;
        let z = self.negated_image(a)?;
        let v = self.sided(b, !not)?;
        let r = self.builder.join(false, z, v)?;
        self.builder.join(true, l, r)
    }

    // Row i's operands, each on its side, and their join.
    #[cycle(images)]
    fn pair(&mut self, i: usize, left: bool, right: bool, or: bool) -> Result<u16, NoRoom>
        requires { AsksOperands self.old i }
        ensures { Imaged (pair_by self.old i left right or) self.old self.new result }
    {
        let w = read_row(self.formulas, i);
        let l = self.sided(w.a as usize, left)?;
        let r = self.sided(w.b as usize, right)?;
        self.builder.join(or, l, r)
    }

    // The image of formula i, or its negated image, by a flag. The memo is looked at here, before a call is made.
    #[cycle(images)]
    pub fn sided(&mut self, i: usize, not: bool) -> Result<u16, NoRoom>
        requires { AsksImage self.old i }
        ensures { Imaged (image_by self.old (side not) i) self.old self.new result }
    {
        let k = self.word_of(i, not);
        if let Some(row) = self.scratch[k].checked_sub(1) {
            return Ok(row);
        }
        self.build(i, not)
    }
}
