// The reader of formulas: whether the bytes of a body are one formula, and whether the instances in it fit
// the equations.
#![tactic(auto)]

mod codes;
mod parameters;
mod terms;
mod tuples;

ghost use Rattle.std.specs.Prelude.{true, false, cond, Some, None, ◌&&◌, ◌≡◌, ◌+◌, ◌≤◌, length};
ghost use Rattle.meaning.specs.Ranges.{is_range, arguments_fit, fits};
ghost use Rattle.formulas.specs.Tuples.{items};
ghost use Rattle.formulas.specs.Bodies.{ranges_of, signatures_of, body_at, is_body, is_fitting};
ghost use Rattle.formulas.specs.Ends.{condition_place, terms_place};
ghost use Rattle.formulas.specs.Contract.{part, signatures_in};
ghost use Rattle.formulas.specs.Contract.{Told, TermsTold, InstanceTold, FormulaTold, Tells};

pub use codes::{kind_of, operands_of, term_kind_of};
use parameters::{parameters_of, signatures_of};
use terms::read_term;
use tuples::counted;
pub use tuples::{item, push};

// An equation's record. Absent ranges are 1; `place` is that of the body's first digit in the text, `length`
// the body's in bytes. `sign` is the rules' number, and k stands beside four ranges, as in the records that
// are lent: the definition `equation_record` says so.
#[derive(Clone, Copy, Debug, PartialEq, Eq)]
pub struct Equation {
    pub sign: u8,
    pub k: u8,
    pub ranges: [u8; 4],
    pub place: usize,
    pub length: usize,
}

#[derive(Clone, Copy, Debug, PartialEq, Eq)]
pub enum Test {
    Equal,
    Less,
    Unequal,
    NotLess,
}

// What a code begins as a formula. A bool is true for the constant true, for `and` and for `for all`.
#[derive(Clone, Copy, Debug, PartialEq, Eq)]
pub enum Kind {
    Constant(bool),
    Join(bool),
    Quantifier(bool),
    Compare(Test),
    Instance,
}

// What a code begins as a term. The bool is true for a sum.
#[derive(Clone, Copy, Debug, PartialEq, Eq)]
pub enum TermKind {
    Number,
    Variable,
    Calculation(bool),
}

// At most eight bytes, the first `count` of `values`: values or ranges of the variables in reach, outermost
// first, or arguments. Fixed memory, copied by value; `push` and `item` are public functions, which stay.
#[derive(Clone, Copy, Debug, PartialEq, Eq)]
pub struct Tuple {
    pub values: [u8; 8],
    pub count: usize,
}

// What was read of a body: what was found of it, and where it ends. That stands beside a truth value, too:
// `is_body` reads it also where the instances don't fit.
#[derive(Clone, Copy)]
struct Span<T> {
    found: T,
    next: usize,
}

impl Span<bool> {
    // Where it ends, if it fits.
    fn end(self) -> Option<usize>
        ensures { result ≡ cond self.found (Some self.next) None }
    {
        self.found.then_some(self.next)
    }
}

pub fn is_range(r: u8) -> bool
    ensures { result ≡ is_range r }
{
    1 <= r && r <= 16
}

// The two terms of a comparison, in which nothing can misfit.
fn read_comparison(body: &[u8], at: usize, scope: Tuple) -> Option<Span<bool>>
    ensures { Tells (TermsTold 2 body.now scope.count at) (λ found ts. found ≡ true) result }
{
    let a = read_term(body, at, scope)?;
    let b = read_term(body, a.next, scope)?;
    Some(Span {
        found: true,
        next: b.next,
    })
}

// c terms in a row, as arguments for the parameters whose ranges stand from `first` on, and whether they fit;
// `fits` is whether all that is before them fits.
fn read_arguments(
    body: &[u8],
    at: usize,
    scope: Tuple,
    c: usize,
    signatures: &[u8],
    first: usize,
    fits: bool,
) -> Option<Span<bool>>
    requires { first + c ≤ 1279 }
    ensures { Tells (TermsTold c body.now scope.count at)
        (λ found ts. found ≡ fits && arguments_fit ts (part signatures.now first c) (items scope)) result }
{
    let mut found = fits;
    let mut next = at;
    for j in first..first + c {
        let a = read_term(body, next, scope)?;
        found = found && a.found <= basics::element(signatures, j);
        next = a.next;
    }
    Some(Span { found, next })
}

// The instance whose equation and number of arguments stand at `at`, and whether it fits.
fn read_instance(body: &[u8], at: usize, scope: Tuple, signatures: &[u8; 41]) -> Option<Span<bool>>
    requires { at ≤ length body.now }
    ensures { Tells (InstanceTold body.now scope.count at)
        (λ found f. found ≡ fits (signatures_in signatures.now) f (items scope)) result }
{
    let x = usize::from(basics::element(body, at));
    let c = usize::from(basics::element(body, at + 1));
    if 4 < c {
        return None;
    }
    let count = usize::from(signatures[40]);
    let k = usize::from(basics::element(signatures, 5 * x + 4));
    let named = x < count && c == k;
    read_arguments(body, at + 2, scope, c, signatures, 5 * x, named)
}

// The formula at `at`, with q quantifiers around it, and whether the instances in it fit; `scope` has the
// ranges of the variables in reach.
// What must still come after it takes the bytes from `limit` on, one at least for each formula.
// So a formula that ends past `limit` may be refused, and the calls go no deeper than half the bytes.
// The body and the ranges in reach are no struct: with one the frame has 312 bytes and not 168, 128 deep.
fn read_formula(
    body: &[u8],
    at: usize,
    limit: usize,
    scope: Tuple,
    q: usize,
    signatures: &[u8; 41],
) -> Option<Span<bool>>
    requires { (limit ≤ length body.now) × ((scope.count ≤ 4 + q) × (q ≤ 4)) }
    ensures { Tells (FormulaTold body.now limit scope.count q at)
        (λ found f. found ≡ fits (signatures_in signatures.now) f (items scope)) result }
{
    if limit <= at {
        return None;
    }
    let code = basics::element(body, at);
    let next = at + 1 + usize::from(operands_of(code));
    match kind_of(code)? {
        Kind::Constant(_) => Some(Span { found: true, next }),
        Kind::Join(_) => {
            // In one place, for a small frame: the first operand, then the second.
            let mut a = read_formula(body, at + 1, limit - 1, scope, q, signatures)?;
            let found = a.found;
            a = read_formula(body, a.next, limit, scope, q, signatures)?;
            a.found = found && a.found;
            Some(a)
        }
        Kind::Quantifier(_) => {
            if 4 <= q {
                return None;
            }
            let r = basics::element(body, at + 1);
            if !is_range(r) {
                return None;
            }
            read_formula(body, at + 2, limit, push(scope, r), q + 1, signatures)
        }
        Kind::Compare(_) => read_comparison(body, at + 1, scope),
        Kind::Instance => read_instance(body, at + 1, scope, signatures),
    }
}

// What stands in a body of e, and whether the instances in it fit. The equations and their count are two
// values, as in `signatures_of equations count`, which the public `is_fitting` promises.
fn read_body(body: &[u8], e: Equation, equations: [Equation; 8], count: usize) -> Option<Span<bool>>
    ensures { Tells (λ P ok m. Told P m (body_at body.now (ranges_of e)) ok)
        (λ found f. found ≡ fits (signatures_of equations count) f (ranges_of e)) result }
{
    let size = body.len();
    if 256 < size {
        return None;
    }
    let signatures = signatures_of(equations, count);
    read_formula(body, 0, size, parameters_of(e), 0, &signatures)
}

// Whether some bytes, as a body of e, are one formula.
pub fn is_body(body: &[u8], e: Equation) -> bool
    ensures { result ≡ is_body body.now (ranges_of e) }
{
    read_body(body, e, [e; 8], 0).is_some_and(|a| a.next == body.len())
}

// Whether the instances in a body of e fit the first `count` of the equations.
pub fn is_fitting(body: &[u8], e: Equation, equations: [Equation; 8], count: usize) -> bool
    ensures { result ≡ is_fitting (signatures_of equations count) body.now (ranges_of e) }
{
    read_body(body, e, equations, count).is_none_or(|a| a.found)
}

// Where the formula at `at` ends that has no quantifier and no instance; `scope` has the ranges of the
// variables in reach.
pub fn condition_end(body: &[u8], at: usize, scope: Tuple) -> Option<usize>
    ensures { result ≡ condition_place body.now at (items scope) }
{
    let size = body.len();
    if 256 < size {
        return None;
    }
    let signatures = [0u8; 41];
    read_formula(body, at, size, counted(scope), 4, &signatures)?.end()
}

// Where as many terms in a row end as there are `ranges`, each of a range that is at most the one in its
// place.
pub fn terms_end(body: &[u8], at: usize, scope: Tuple, ranges: Tuple) -> Option<usize>
    ensures { result ≡ terms_place body.now at (items scope) (items ranges) }
{
    if 256 < body.len() {
        return None;
    }
    let known = counted(ranges);
    let count = known.count;
    read_arguments(body, at, counted(scope), count, &known.values, 0, true)?.end()
}
