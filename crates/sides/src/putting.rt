// Bytes put one after the other into a frame, which has room for 256: none where there is no more room.
// A frame and the count of its bytes are two parameters: the frame is the caller's, who keeps it where
// there is no count.
ghost use Rattle.std.specs.Prelude.{◌≡◌, true, [], ◌∷◌};
ghost use Rattle.spelling.specs.Spelled.{either_code};
ghost use Rattle.sides.specs.Emitted.{Counted, Puts};

// One byte more, where there is room.
pub(crate) fn put(out: &mut [u8; 256], count: usize, b: u8) -> Option<usize>
    ensures { Counted result (Puts true (b ∷ []) out.old count out.new) }
{
    if 256 <= count {
        return None;
    }
    out[count] = b;
    Some(count + 1)
}

// Two bytes more.
pub(crate) fn put_two(out: &mut [u8; 256], count: usize, a: u8, b: u8) -> Option<usize>
    ensures { Counted result (Puts true (a ∷ b ∷ []) out.old count out.new) }
{
    let c = put(out, count, a)?;
    put(out, c, b)
}

// One code for true, the other for false.
#[tactic(auto, unfolding(spelling::specs::Spelled::either_code))]
pub(crate) fn either_code(b: bool, t: u8, f: u8) -> u8
    ensures { result ≡ either_code b t f }
{
    if b { t } else { f }
}
