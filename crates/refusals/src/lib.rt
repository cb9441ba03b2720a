// Why a text, a list, a room or a buffer is refused, and at which line.
#![tactic(auto)]

ghost use Rattle.std.specs.Prelude.{◌≡◌};
ghost use Rattle.refusals.specs.Numbers.{number_of};

// Each reason has the number that the rules give it.
#[derive(Clone, Copy, Debug, PartialEq, Eq)]
pub enum Reason {
    TextTooLong = 1,
    NoDigit = 2,
    NoLine = 3,
    OutOfPlace = 4,
    WrongHead = 5,
    NoFormula = 6,
    WrongInstance = 7,
    WrongStart = 8,
    NoRoom = 9,
    ShortBuffer = 10,
    AnotherList = 11,
    NoProcess = 14,
    ModelTooLarge = 15,
    NoEquation = 19,
}

impl From<Reason> for u8 {
    ghost from_gives = { λ reason n. n ≡ number_of reason };

    fn from(reason: Reason) -> u8 {
        reason as u8
    }
}

// A reason, and the line that it is given for; 0 where it is given for none, which is the rules' number: the
// definitions `told` hand it on.
#[derive(Clone, Copy, Debug, PartialEq, Eq)]
pub struct Refusal {
    pub reason: Reason,
    pub line: usize,
}

// The refusal that is given for no line.
impl From<Reason> for Refusal {
    ghost from_gives = { λ reason r. r ≡ record { reason = reason; line = 0 } };

    fn from(reason: Reason) -> Refusal {
        Refusal { reason, line: 0 }
    }
}
