// Gathering: the instances that are left in the right side of an instance are added to the words found; the
// numbers of those that it reads and the way they are joined are told.
#![tactic(auto)]

mod shapes;
mod walk;

ghost use Rattle.std.specs.Prelude.{◌≤◌, length, ◌≡◌};
ghost use Rattle.gathering.specs.Shapes.{is_plain};
ghost use Rattle.gathering.specs.Side.{SideGathers};

use formulas::Equation;
use walk::gather;

// What is left of a formula: a constant; one instance; instances joined by `and` alone (true) or by `or`
// alone (false); or by both.
#[derive(Clone, Copy, PartialEq, Eq)]
pub enum Shape {
    Decided(bool),
    One,
    Plain(bool),
    Mixed,
}

// What was gathered of a right side: how many words are found then, the numbers of the instances that are
// left in it, and its shape. Where there is no room for all words, `found` is one more than the room.
// Kept as that number: the promise `SideGathers` bounds it by the room and reads it so.
#[derive(Clone, Copy)]
pub struct Side {
    pub found: usize,
    pub reads: [u64; 8],
    pub shape: Shape,
}

// Adds the instances that are left in the right side of the instance with the word w to the n words found:
// `found` is one more than the table's room, where there is none for all of them.
pub fn gather_side(
    bodies: &[u8],
    equations: [Equation; 8],
    w: u32,
    table: &mut [u32],
    n: usize,
) -> Side
    ensures { SideGathers bodies.now equations w (length table.old)
        table.old table.new n result }
{
    let mut found = n.min(table.len() + 1);
    let mut reads = truth::none();
    let e = words::equation_number(w);
    if 8 <= e {
        return Side {
            found,
            reads,
            shape: Shape::Decided(false),
        };
    }
    let body = instances::body_of(bodies, w);
    let scope = words::argument_tuple(w, equations[e].k);
    let shape = gather(body, 0, scope, table, &mut reads, &mut found).value;
    Side {
        found,
        reads,
        shape,
    }
}

// Whether what is left is a plain `and` (where `all` is true) or a plain `or` of instances, of none or one or
// more of them.
pub fn is_plain(shape: Shape, all: bool) -> bool
    ensures { result ≡ is_plain all shape }
{
    match shape {
        Shape::Decided(b) | Shape::Plain(b) => b == all,
        Shape::One => true,
        Shape::Mixed => false,
    }
}
