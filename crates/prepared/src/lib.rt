// Bodies prepared for evaluation: beside the bytes of a body stands where the formula or term that begins at
// a place ends.
#![tactic(auto)]

ghost use Rattle.std.specs.Prelude.{◌≡◌};
ghost use Rattle.prepared.specs.Prepared.{byte_at, end_at};

// What stands at a place of a prepared body; 0 behind it, which is no code: the definition `byte_at` says so.
pub fn byte_at(body: &[u8], i: usize) -> u8
    ensures { result ≡ byte_at body.now i }
{
    if 256 <= i {
        return 0;
    }
    basics::element(body, i)
}

// The place after the formula or term that begins at a place; behind the body that place itself, as the
// definition `end_at` says.
pub fn end_at(body: &[u8], i: usize) -> usize
    ensures { result ≡ end_at body.now i }
{
    if 256 <= i {
        return i;
    }
    i + 1 + usize::from(basics::element(body, 256 + i))
}
