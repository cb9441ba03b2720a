// How far it is from a code to its parts, and how many these are.
ghost use Rattle.std.specs.Prelude.{◌≡◌};
ghost use Rattle.preparing.specs.Ends.{parts_of, width_of};

// How many parts a code has, each a formula or a term; n is the byte after the next, of an instance the
// number of its arguments.
pub(crate) fn parts_of(code: u8, n: u8) -> usize
    ensures { result ≡ parts_of code n }
{
    // An arm for each code: of or-patterns a proof has only Rattle's own names, and it didn't close.
    match code {
        0x10 => 0,
        0x11 => 0,
        0x14 => 1,
        0x15 => 1,
        0x1a => usize::from(n).min(4),
        0x20 => 0,
        0x21 => 0,
        _ => 2,
    }
}

// How many bytes stand before the first of them.
pub(crate) fn width_of(code: u8) -> usize
    ensures { result ≡ width_of code }
{
    match code {
        0x14 => 2,
        0x15 => 2,
        0x1a => 3,
        _ => { if code < 0x20 { 1 } else { 2 } }
    }
}
