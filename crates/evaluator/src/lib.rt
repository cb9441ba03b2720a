// The value of a formula in a prepared body: a formula calls on a quantifier's fold, which calls on the
// formula inside it. A table of words says which instances have a number, and a set which of these are true.
// Each value tells which variables were looked at for it: no other one matters, so a quantifier whose own
// variable was not looked at has the same value for all of its values.
#![tactic(auto)]

mod leaves;
mod tables;
mod terms;
mod values;

ghost use Rattle.std.specs.Prelude.{◌≡◌, ◌+◌, ◌<◌};
ghost use Rattle.truth.specs.Bits.{bit_of};
ghost use Rattle.formulas.specs.Tuples.{items};
ghost use Rattle.prepared.specs.Prepared.{formula_there};
ghost use Rattle.evaluator.specs.Values.{valued, value_in};
ghost use Rattle.evaluator.specs.Folds.{FormulaValued, FoldValued};

use formulas::{Kind, Tuple, is_range, kind_of, push};
pub use leaves::{test_at, word_at};
use looked::Looked;
use prepared::{byte_at, end_at};
pub use tables::lookup;
use tables::value_of;
use values::{decides, joined};

// The value of the formula at a place. The second part of a join is passed over where the first decides.
// Body, table and set are kept as parameters: with a struct of them a frame took 160 bytes more, and bodies
// nest 126 deep in the stack that is stated.
#[cycle(fold_value_there)]
fn value_there(
    body: &[u8],
    at: usize,
    scope: Tuple,
    table: &[u32],
    truth: &[u64; 8],
) -> Looked<Option<bool>>
    ensures { FormulaValued (formula_there body.now scope.count at)
        (value_in table.now (bit_of truth.now)) (items scope) result }
{
    if 256 <= at {
        return Looked::alone(Some(false));
    }
    let Some(kind) = kind_of(byte_at(body, at)) else {
        return Looked::alone(Some(false));
    };
    match kind {
        Kind::Constant(b) => Looked::alone(Some(b)),
        Kind::Join(all) => {
            let a = value_there(body, at + 1, scope, table, truth);
            if decides(all, a.value) {
                return a;
            }
            let b = value_there(body, end_at(body, at + 1), scope, table, truth);
            joined(all, a, b)
        }
        Kind::Quantifier(all) => {
            let r = byte_at(body, at + 1);
            if 8 <= scope.count || !is_range(r) {
                return Looked::alone(Some(false));
            }
            fold(body, at + 2, scope, all, r, table, truth)
        }
        Kind::Compare(t) => {
            let a = test_at(body, at, scope, t);
            Looked {
                value: Some(a.value),
                looked: a.looked,
            }
        }
        Kind::Instance => {
            let a = word_at(body, at, scope);
            Looked {
                value: value_of(table, truth, a.value),
                looked: a.looked,
            }
        }
    }
}

// The `and` (the `or`, where `all` is false) of the values that the formula at a place has where one more
// variable has the values below r, from 0 up. The others are left out where those before them decide, and
// where the variable was not looked at for these.
#[cycle(fold_value_there)]
fn fold(
    body: &[u8],
    at: usize,
    scope: Tuple,
    all: bool,
    r: u8,
    table: &[u32],
    truth: &[u64; 8],
) -> Looked<Option<bool>>
    requires { (0 < r) × (scope.count < 8) }
    ensures { FoldValued all r (formula_there body.now (scope.count + 1) at)
        (value_in table.now (bit_of truth.now)) (items scope) result }
{
    let mut a = value_there(body, at, push(scope, 0), table, truth);
    for i in 1..r {
        if decides(all, a.value) {
            return a;
        }
        if !looked::looks_at(a.looked, scope.count) {
            return a;
        }
        let b = value_there(body, at, push(scope, i), table, truth);
        a = joined(all, a, b);
    }
    a
}

// The value of the formula at the beginning of a prepared body.
pub fn evaluate(body: &[u8], scope: Tuple, table: &[u32], truth: &[u64; 8]) -> Option<bool>
    ensures { result ≡ valued (formula_there body.now scope.count 0)
        (value_in table.now (bit_of truth.now)) (items scope) }
{
    value_there(body, 0, scope, table, truth).value
}
