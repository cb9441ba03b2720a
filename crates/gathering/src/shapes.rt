// The shapes of what is left of a formula, and how connectives join them.
ghost use Rattle.std.specs.Prelude.{◌≡◌};
ghost use Rattle.gathering.specs.Shapes.{is_decided, decides, fits, joined_shape};
ghost use Rattle.gathering.specs.Gathered.{joined_parts};

use crate::Shape;
use looked::Looked;

// Whether nothing is left of a formula.
pub(crate) fn is_decided(shape: Shape) -> bool
    ensures { result ≡ is_decided shape }
{
    matches!(shape, Shape::Decided(_))
}

// Whether a part of this shape decides the connective that `all` says by itself: false in an `and`, true in
// an `or`. This and `joined` are not the evaluator's: the joins of values and of shapes are two definitions,
// `join_value` and `joined_shape`.
pub(crate) fn decides(all: bool, shape: Shape) -> bool
    ensures { result ≡ decides all shape }
{
    shape == Shape::Decided(!all)
}

// Whether what is left is one instance, or joined by the connective that `all` says alone.
fn fits(all: bool, shape: Shape) -> bool
    ensures { result ≡ fits all shape }
{
    match shape {
        Shape::One => true,
        Shape::Plain(b) => b == all,
        Shape::Decided(_) | Shape::Mixed => false,
    }
}

// The shape of two parts that are joined by the connective that `all` says: a constant is dropped, or it
// decides the whole.
fn join_shapes(all: bool, a: Shape, b: Shape) -> Shape
    ensures { result ≡ joined_shape all a b }
{
    match (a, b) {
        (Shape::Decided(c), other) | (other, Shape::Decided(c)) => {
            if c == all { other } else { Shape::Decided(c) }
        }
        _ => {
            if fits(all, a) && fits(all, b) {
                Shape::Plain(all)
            } else {
                Shape::Mixed
            }
        }
    }
}

// What is left of two parts together.
pub(crate) fn joined(all: bool, first: Looked<Shape>, second: Looked<Shape>) -> Looked<Shape>
    ensures { result ≡ joined_parts all first second }
{
    Looked {
        value: join_shapes(all, first.value, second.value),
        looked: looked::both(first.looked, second.looked),
    }
}
