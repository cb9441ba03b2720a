// The values of terms in a prepared body, and which variables were looked at for them: a term calls on the
// terms inside it.
ghost use Rattle.std.specs.Prelude.{◌≡◌, ◌++◌, ◌+◌, ◌≤◌, ◌<◌};
ghost use Rattle.meaning.specs.Formulas.{calculation, value, values};
ghost use Rattle.formulas.specs.Tuples.{items};
ghost use Rattle.looked.specs.Looked.{looked_term, looked_terms};
ghost use Rattle.prepared.specs.Prepared.{term_there, terms_there};
ghost use Rattle.evaluator.specs.Replies.{TermValued};

use formulas::{TermKind, Tuple, is_range, item, push, term_kind_of};
use looked::Looked;
use prepared::{byte_at, end_at};

// The remainder by r of the sum, or of the difference with b times r added, which is not below 0.
fn calculate(plus: bool, r: u8, a: u8, b: u8) -> u8
    requires { 0 < r }
    ensures { result ≡ calculation plus r a b }
{
    let range = u32::from(r);
    let first = u32::from(a);
    let second = u32::from(b);
    let whole = if plus {
        first + second
    } else {
        first + second * range - second
    };
    (whole % range) as u8
}

// The value of the term at a place. Here and in the leaves, body, place and scope are parameters: a struct of
// them would be built anew at each call, as the place changes.
pub(crate) fn term(body: &[u8], at: usize, scope: Tuple) -> Looked<u8>
    ensures { TermValued (term_there body.now at) (items scope) result }
{
    if 256 <= at {
        return Looked::alone(0);
    }
    let Some(kind) = term_kind_of(byte_at(body, at)) else {
        return Looked::alone(0);
    };
    let x = byte_at(body, at + 1);
    match kind {
        TermKind::Number => Looked::alone(x),
        TermKind::Variable => Looked {
            value: item(scope, x),
            looked: looked::only(x),
        },
        TermKind::Calculation(plus) => {
            if !is_range(x) {
                return Looked::alone(0);
            }
            let a = term(body, at + 2, scope);
            let b = term(body, end_at(body, at + 2), scope);
            Looked {
                value: calculate(plus, x, a.value, b.value),
                looked: looked::both(a.looked, b.looked),
            }
        }
    }
}

// The values of n terms in a row.
pub(crate) fn arguments(body: &[u8], at: usize, scope: Tuple, n: u8) -> Looked<Tuple>
    requires { n ≤ 8 }
    ensures { (items result.value ≡ values (terms_there body.now n at) (items scope))
        × (result.looked ≡ looked_terms 0 (terms_there body.now n at)) }
{
    let mut next = at;
    let mut got = Looked::alone(Tuple {
        values: [0; 8],
        count: 0,
    });
    for _ in 0..n {
        let a = term(body, next, scope);
        got = Looked {
            value: push(got.value, a.value),
            looked: looked::both(got.looked, a.looked),
        };
        next = end_at(body, next);
    }
    got
}
