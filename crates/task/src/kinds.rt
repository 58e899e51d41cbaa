// The kinds of formulas and of effects.
ghost use Rattle.task.specs.Kinds.{FormulaKindOf, EffectKindOf};

// A formula's kind, in the order of the numbers.
#[derive(Clone, Copy, Debug, PartialEq, Eq)]
pub enum FormulaKind {
    False,
    True,
    Variable,
    Not,
    And,
    Or,
    Implies,
    Equivalent,
}

// An effect's kind, in the order of the numbers.
#[derive(Clone, Copy, Debug, PartialEq, Eq)]
pub enum EffectKind {
    Empty,
    Set,
    Clear,
    Both,
    Under,
}

// A number that is no kind's.
#[derive(Clone, Copy, Debug, PartialEq, Eq)]
pub struct UnknownKind(pub u16);

impl TryFrom<u16> for FormulaKind {
    type Error = UnknownKind;

    ghost try_from_gives = { FormulaKindOf };

    fn try_from(number: u16) -> Result<FormulaKind, UnknownKind> {
        match number {
            0 => Ok(FormulaKind::False),
            1 => Ok(FormulaKind::True),
            2 => Ok(FormulaKind::Variable),
            3 => Ok(FormulaKind::Not),
            4 => Ok(FormulaKind::And),
            5 => Ok(FormulaKind::Or),
            6 => Ok(FormulaKind::Implies),
            7 => Ok(FormulaKind::Equivalent),
            _ => Err(UnknownKind(number)),
        }
    }
}

impl TryFrom<u16> for EffectKind {
    type Error = UnknownKind;

    ghost try_from_gives = { EffectKindOf };

    fn try_from(number: u16) -> Result<EffectKind, UnknownKind> {
        match number {
            0 => Ok(EffectKind::Empty),
            1 => Ok(EffectKind::Set),
            2 => Ok(EffectKind::Clear),
            3 => Ok(EffectKind::Both),
            4 => Ok(EffectKind::Under),
            _ => Err(UnknownKind(number)),
        }
    }
}
