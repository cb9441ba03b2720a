// The reader of terms: a term calls on the terms inside it.
ghost use Rattle.std.specs.Prelude.{◌≡◌};
ghost use Rattle.meaning.specs.Ranges.{term_range};
ghost use Rattle.formulas.specs.Tuples.{items};
ghost use Rattle.formulas.specs.Contract.{TermTold, Tells};

use crate::codes::{operands_of, term_kind_of};
use crate::tuples::item;
use crate::{Span, TermKind, Tuple, is_range};

// The term at `at` of a body, and its range.
pub(crate) fn read_term(body: &[u8], at: usize, scope: Tuple) -> Option<Span<u8>>
    ensures { Tells (TermTold body.now scope.count at) (λ range t. range ≡ term_range t (items scope))
        result }
{
    if body.len() <= at {
        return None;
    }
    let code = basics::element(body, at);
    let x = basics::element(body, at + 1);
    let next = at + 1 + usize::from(operands_of(code));
    match term_kind_of(code)? {
        TermKind::Number => {
            if 15 < x {
                return None;
            }
            Some(Span { found: x + 1, next })
        }
        TermKind::Variable => {
            if scope.count <= usize::from(x) {
                return None;
            }
            Some(Span {
                found: item(scope, x),
                next,
            })
        }
        TermKind::Calculation(_) => {
            if !is_range(x) {
                return None;
            }
            let a = read_term(body, at + 2, scope)?;
            let b = read_term(body, a.next, scope)?;
            Some(Span {
                found: x,
                next: b.next,
            })
        }
    }
}
