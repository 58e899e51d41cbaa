// The row of a variable, on a side.
ghost use Rattle.std.specs.Prelude.{◌≡◌, ◌<◌};
ghost use Rattle.normal_form.specs.Image.{literal};
ghost use Rattle.formula_builder.specs.Inner.Held.{side, BuilderReady, Built};

use formula_builder::{Builder, NoRoom, Words};

// A variable's row is copied, or negated, its twin's row is built.
#[tactic(auto, unfolding(normal_form::specs::Image::literal, normal_form::specs::Builder::variable_row))]
pub fn literal(b: &mut Builder<'_>, w: Words, not: bool) -> Result<u16, NoRoom>
    requires { BuilderReady b.old × (w.kind ≡ 2) × (w.b ≡ 0) × (w.a < b.old.frame.variables) }
    ensures { Built (literal b.old.frame.variables (side not) w.a) b.old b.new result }
{
    if not { b.twin_row(w.a) } else { b.row(w) }
}
