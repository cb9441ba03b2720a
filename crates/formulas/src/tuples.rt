// Tuples of at most eight bytes: one more behind, and one of them.
ghost use Rattle.std.specs.Prelude.{◌≡◌, ◌≤◌, length, get_or};
ghost use Rattle.formulas.specs.Tuples.{items, Pushes};

use crate::Tuple;

// One more behind those that are there.
pub fn push(tuple: Tuple, value: u8) -> Tuple
    ensures { Pushes tuple value result }
{
    let mut longer = tuple;
    if tuple.count < 8 {
        longer.values[tuple.count] = value;
        longer.count += 1;
    }
    longer
}

// Number i of them; 0 where there are not so many: `get_or` in its promise names it.
pub fn item(tuple: Tuple, i: u8) -> u8
    ensures { result ≡ get_or (items tuple) i 0 }
{
    let j = usize::from(i);
    if j < tuple.count.min(8) {
        tuple.values[j]
    } else {
        0
    }
}

// The same bytes, and no more counted than there are.
pub(crate) fn counted(tuple: Tuple) -> Tuple
    ensures { (items result ≡ items tuple) × ((result.count ≡ length (items tuple)) × (result.count ≤ 8)) }
{
    Tuple {
        count: tuple.count.min(8),
        ..tuple
    }
}
