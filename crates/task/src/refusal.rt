// Why a call refuses what it is handed. The number of a refusal is what the scope's table gives; it crosses to C.
ghost use Rattle.std.specs.Prelude.{◌≡◌};
ghost use Rattle.task.specs.Refused.{number_of};

use std::fmt;

// The refusals, in the order of their numbers.
#[derive(Clone, Copy, Debug, PartialEq, Eq)]
pub enum Refusal {
    // The file ends inside a field or a row.
    CutShort = 1,
    // An unused bit of a map, or a spare bit of the initial state, is 1.
    SpareBit = 2,
    // A field is present that has its default.
    NeedlessField = 3,
    // Bytes follow the task.
    BytesBehind = 4,
    // A lent table is too short for its count.
    ShortTable = 5,
    // A count is outside its limits.
    Counts = 6,
    // The goal is no formula of the table.
    Goal = 7,
    // An initial byte is neither 0 nor 1.
    InitialByte = 8,
    // A twin's original is no variable that has one, or was named before.
    Twin = 9,
    // A formula's row breaks its rule.
    Formula = 10,
    // An effect's row breaks its rule.
    Effect = 11,
    // An operator's precondition or effect is no row of its table.
    Operator = 12,
    // The source has twins already.
    SourceTwins = 13,
    // Scratch is too short.
    ShortScratch = 14,
    // The compiled task passes a limit, or has no room in a lent table.
    NoRoom = 15,
    // The state is of a wrong length, or a byte of it is above 1.
    State = 16,
    // No operator has this number.
    NoOperator = 17,
    // The operator's precondition does not hold.
    NotApplicable = 18,
    // The sequence is too long.
    LongSequence = 19,
    // The output is too short.
    ShortOutput = 20,
    // A plan is searched for over few variables only.
    ManyVariables = 21,
    // The task has no plan.
    NoPlan = 22,
    // The plan is longer than its buffer.
    LongPlan = 23,
    // A percent is above 200.
    Percent = 24,
    // A variable has no value, or too many.
    ValueCount = 25,
    // A value is not below its variable's count.
    Value = 26,
}

impl Refusal {
    // Its number. Constant time.
    pub fn number(self) -> u16
        ensures { result ≡ number_of self }
    {
        self as u16
    }
}

impl From<Refusal> for u16 {
    ghost from_gives = { λ refusal number. number ≡ number_of refusal };

    fn from(refusal: Refusal) -> u16 {
        refusal.number()
    }
}

impl From<Refusal> for u32 {
    ghost from_gives = { λ refusal number. number ≡ number_of refusal };

    fn from(refusal: Refusal) -> u32 {
        u32::from(refusal.number())
    }
}

impl fmt::Display for Refusal {
    fn fmt<W: fmt::Write>(&self, f: &mut fmt::Formatter<W>) -> fmt::Result {
        write!(f, "refused with {}", self.number())
    }
}
