// Gathering: the instances that are left in a formula are added to the words found, their numbers are noted,
// and the shape of what is left is told. A formula calls on a quantifier's fold, which calls on the formula
// inside it. A part is walked once: words are added as they are met, and where a join or a quantifier turns
// out to be decided, what was added inside is taken back. Each part tells which variables were looked at: a
// quantifier whose own variable was not leaves the same at all of its values.
ghost use Rattle.std.specs.Prelude.{cond, ◌≡◌, ◌+◌, ◌≤◌, ◌<◌, length};
ghost use Rattle.formulas.specs.Tuples.{items};
ghost use Rattle.prepared.specs.Prepared.{formula_there};
ghost use Rattle.gathering.specs.Gathered.{store};
ghost use Rattle.gathering.specs.Gathered.{GathersInstance, GathersLeft, GathersOver};
ghost use Rattle.gathering.specs.Filling.{Adds, added_word};
ghost use Rattle.gathering.specs.Shapes.{is_decided};

use crate::Shape;
use crate::shapes::{decides, is_decided, joined};
use formulas::{Kind, Tuple};
use looked::Looked;
use prepared::{byte_at, end_at};

// Adds a word behind those found, unless it is there: one more than the table's room is found, where there is
// none for it. Its number is where it stands, or where it would; where nothing more is taken it has none.
// `found` is bounded by the table's length in each contract here: that ties two lent places, which no type of
// one of them holds, and `SideGathers` promises it in the end.
fn add_word(table: &mut [u32], found: &mut usize, w: u32) -> Option<usize>
    requires { found.old ≤ length table.old + 1 }
    ensures { Adds (length table.old) table.old table.new found.old w
        (added_word found.new result) }
{
    let n = *found;
    if table.len() < n {
        return None;
    }
    let at = evaluator::lookup(&table[..n], w);
    if at < n {
        return Some(at);
    }
    *found = n + 1;
    if n < table.len() {
        table[n] = w;
    }
    Some(at)
}

// Adds the instance at a place to the words found, and puts its number into the set of those read.
fn gather_instance(
    body: &[u8],
    at: usize,
    scope: Tuple,
    table: &mut [u32],
    reads: &mut [u64; 8],
    found: &mut usize,
) -> Looked<Shape>
    requires { found.old ≤ length table.old + 1 }
    ensures { GathersInstance body.now at (items scope)
        (store table.old found.old reads.old)
        (store table.new found.new reads.new) result }
{
    let i = evaluator::word_at(body, at, scope);
    if let Some(number) = add_word(table, found, i.value) {
        truth::mark(reads, number);
    }
    Looked {
        value: Shape::One,
        looked: i.looked,
    }
}

// Takes back what was added inside a join or a quantifier, where nothing is left of it: the words found are
// the n found before it, and the numbers read are the set of those read before it. What then stands in the
// table behind the words found says nothing.
fn take_back(shape: Shape, n: usize, set: &[u64; 8], reads: &mut [u64; 8], found: &mut usize)
    ensures { (found.new ≡ cond (is_decided shape) n found.old)
        × (reads.new ≡ cond (is_decided shape) set.now reads.old) }
{
    if is_decided(shape) {
        *found = n;
        *reads = *set;
    }
}

// Adds the instances that are left in the formula at a place to the words found and their numbers to the set
// of those read, and tells its shape. The second part of a join is passed over where the first decides.
// Table, set and number are three places lent, since the table is the caller's: a struct of three `&mut`
// would be lent on field by field at each call, and would show no more. Body, place and scope are parameters
// as in the evaluator's `term`: a struct of them would be built anew at each call, as the place changes.
#[cycle(gather_gather_fold)]
pub(crate) fn gather(
    body: &[u8],
    at: usize,
    scope: Tuple,
    table: &mut [u32],
    reads: &mut [u64; 8],
    found: &mut usize,
) -> Looked<Shape>
    requires { found.old ≤ length table.old + 1 }
    ensures { GathersLeft (formula_there body.now scope.count at) (items scope)
        (store table.old found.old reads.old)
        (store table.new found.new reads.new) result }
{
    if 256 <= at {
        return Looked::alone(Shape::Decided(false));
    }
    // What to go back to, in one place for a small frame.
    let n = *found;
    let set = *reads;
    let Some(kind) = formulas::kind_of(byte_at(body, at)) else {
        return Looked::alone(Shape::Decided(false));
    };
    match kind {
        Kind::Constant(b) => Looked::alone(Shape::Decided(b)),
        // A test is never open: its value says all.
        Kind::Compare(t) => {
            let a = evaluator::test_at(body, at, scope, t);
            Looked {
                value: Shape::Decided(a.value),
                looked: a.looked,
            }
        }
        Kind::Join(all) => {
            let first = gather(body, at + 1, scope, table, reads, found);
            // A first part that decides took back what it added.
            if decides(all, first.value) {
                return first;
            }
            // In one place too: the second part, then both.
            let mut part = gather(body, end_at(body, at + 1), scope, table, reads, found);
            part = joined(all, first, part);
            take_back(part.value, n, &set, reads, found);
            part
        }
        Kind::Quantifier(all) => {
            let r = byte_at(body, at + 1);
            if 8 <= scope.count || !formulas::is_range(r) {
                return Looked::alone(Shape::Decided(false));
            }
            let part = gather_fold(body, at + 2, scope, all, r, table, reads, found);
            take_back(part.value, n, &set, reads, found);
            part
        }
        Kind::Instance => gather_instance(body, at, scope, table, reads, found),
    }
}

// The same for a formula at the values below r of a quantified variable, from 0 up. The others are left out
// where those before them decide; where the variable was not looked at for these, as much is left at every
// other one. What was added is not taken back here.
#[cycle(gather_gather_fold)]
fn gather_fold(
    body: &[u8],
    at: usize,
    scope: Tuple,
    all: bool,
    r: u8,
    table: &mut [u32],
    reads: &mut [u64; 8],
    found: &mut usize,
) -> Looked<Shape>
    requires { (found.old ≤ length table.old + 1) × (0 < r) × (scope.count < 8) }
    ensures { GathersOver all r (formula_there body.now (scope.count + 1) at)
        (items scope) (store table.old found.old reads.old)
        (store table.new found.new reads.new) result }
{
    let mut a = gather(body, at, formulas::push(scope, 0), table, reads, found);
    for i in 1..r {
        if decides(all, a.value) {
            return a;
        }
        if !looked::looks_at(a.looked, scope.count) {
            return joined(all, a, a);
        }
        let b = gather(body, at, formulas::push(scope, i), table, reads, found);
        a = joined(all, a, b);
    }
    a
}
