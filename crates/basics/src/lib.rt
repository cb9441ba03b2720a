// Small steps on bytes, numbers and truth values. Five of them, all but `element`, are std's by other names,
// and most callers take std's. `reading` and `processes` call these where a start, a body's length and an
// action are judged, so that what they promise (`one_wide` to `one_rest`) holds what each program runs.
#![tactic(auto)]

ghost use Rattle.std.specs.Prelude.{◌≡◌, true, cond, ◌&&◌, ◌-◌, ◌<◌, min, get_or};

// A byte as an index or a count.
pub fn wide(x: u8) -> usize
    ensures { (result ≡ x) × (result < 256) }
{
    usize::from(x)
}

// Whether both hold.
pub fn and(a: bool, b: bool) -> bool
    ensures { result ≡ a && b }
{
    a && b
}

// Whether b holds where a does.
pub fn implies(a: bool, b: bool) -> bool
    ensures { result ≡ cond a b true }
{
    !a || b
}

pub fn smaller(a: usize, b: usize) -> usize
    ensures { result ≡ min a b }
{
    a.min(b)
}

// What is left of a when b is taken away: 0 where b is greater.
pub fn rest(a: usize, b: usize) -> usize
    ensures { result ≡ a - b }
{
    a.saturating_sub(b)
}

// What stands at `i` of a list of bytes; 0 past its end: `get_or` in its promise names it.
pub fn element(list: &[u8], i: usize) -> u8
    ensures { result ≡ get_or list.now i 0 }
{
    list.get(i).copied().unwrap_or(0)
}
