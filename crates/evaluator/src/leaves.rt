// The values of formulas that have no formula inside: the test of two terms, and an instance by its word.
ghost use Rattle.std.specs.Prelude.{◌≡◌};
ghost use Rattle.meaning.specs.Formulas.{test_holds};
ghost use Rattle.formulas.specs.Decode.{test_of};
ghost use Rattle.formulas.specs.Tuples.{items};
ghost use Rattle.evaluator.specs.Replies.{test_there, word_there};

use crate::terms::{arguments, term};
use formulas::{Test, Tuple};
use looked::Looked;
use prepared::{byte_at, end_at};

fn tested(t: Test, a: u8, b: u8) -> bool
    ensures { result ≡ test_holds (test_of t) a b }
{
    match t {
        Test::Equal => a == b,
        Test::Less => a < b,
        Test::Unequal => a != b,
        Test::NotLess => b <= a,
    }
}

// The test whose code stands at a place. What two parts give, and the variables of both, are put together in
// full here and wherever it is done: a method of `Looked` that takes a closure would require that it may be
// called (`F.pre`), and no public function has a `requires`.
pub fn test_at(body: &[u8], at: usize, scope: Tuple, t: Test) -> Looked<bool>
    ensures { result ≡ test_there body.now at (items scope) t }
{
    if 256 <= at {
        return Looked::alone(tested(t, 0, 0));
    }
    let a = term(body, at + 1, scope);
    let b = term(body, end_at(body, at + 1), scope);
    Looked {
        value: tested(t, a.value, b.value),
        looked: looked::both(a.looked, b.looked),
    }
}

// The word of the instance whose code stands at a place.
pub fn word_at(body: &[u8], at: usize, scope: Tuple) -> Looked<u32>
    ensures { result ≡ word_there body.now at (items scope) }
{
    if 256 <= at {
        return Looked::alone(0);
    }
    let n = byte_at(body, at + 2).min(4);
    let got = arguments(body, at + 3, scope, n);
    Looked {
        value: words::word_of(byte_at(body, at + 1), got.value),
        looked: got.looked,
    }
}
