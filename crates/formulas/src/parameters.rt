// The ranges of the equations' parameters: of one equation as a tuple, of all as a list of bytes.
ghost use Rattle.std.specs.Prelude.{◌≡◌, ◌≤◌, length};
ghost use Rattle.formulas.specs.Tuples.{items};
ghost use Rattle.formulas.specs.Bodies.{ranges_of, signatures_of};
ghost use Rattle.formulas.specs.Contract.{signature_byte, signatures_in};

use crate::{Equation, Tuple};

// The ranges of an equation's parameters.
pub(crate) fn parameters_of(e: Equation) -> Tuple
    ensures { (items result ≡ ranges_of e) × ((result.count ≡ length (ranges_of e)) × (result.count ≤ 4)) }
{
    let [a, b, c, d] = e.ranges;
    Tuple {
        values: [a, b, c, d, 0, 0, 0, 0],
        count: usize::from(e.k).min(4),
    }
}

// Of an equation's five bytes number i: its four ranges, then how many of them are parameters'.
fn signature_byte(e: Equation, i: usize) -> u8
    ensures { (result ≡ signature_byte e i) × (length e.ranges ≡ 4) }
{
    if i < 4 { e.ranges[i] } else { e.k.min(4) }
}

// Five bytes for each equation; in the last place how many equations may be named, the first `count`. So all
// stand behind one pointer: what a frame of a recursion holds is what bounds the stack.
pub(crate) fn signatures_of(equations: [Equation; 8], count: usize) -> [u8; 41]
    ensures { signatures_in result ≡ signatures_of equations count }
{
    let mut table = [0u8; 41];
    table[40] = count.min(8) as u8;
    for j in 0..40 {
        table[j] = signature_byte(equations[j / 5], j % 5);
    }
    table
}
