// Which variables were looked at for a value: a set of at most eight of them in one byte. A variable past the
// eighth counts as looked at.
#![tactic(auto)]

ghost use Rattle.std.specs.Prelude.{◌≡◌};
ghost use Rattle.looked.specs.Looked.{only, both, looks_at};
ghost use Rattle.looked.specs.Alone.{alone};

// A value, and the variables that were looked at for it.
#[derive(Clone, Copy)]
pub struct Looked<T> {
    pub value: T,
    pub looked: u8,
}

impl<T> Looked<T> {
    // A value for which no variable was looked at.
    pub fn alone(value: T) -> Looked<T>
        ensures { result ≡ alone value }
    {
        Looked { value, looked: 0 }
    }
}

// Variable i alone.
pub fn only(i: u8) -> u8
    ensures { result ≡ only i }
{
    if i < 8 { 1u8 << i } else { 0 }
}

// The variables of two sets.
pub fn both(a: u8, b: u8) -> u8
    ensures { result ≡ both a b }
{
    a | b
}

// Whether variable i was looked at.
pub fn looks_at(set: u8, i: usize) -> bool
    ensures { result ≡ looks_at set i }
{
    if 8 <= i {
        return true;
    }
    (set >> i) % 2 == 1
}
