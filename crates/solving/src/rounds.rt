// Rounds: the instances of one equation after the other, from the last that has a dirty one, go to their
// right sides.
//
// Carried over from round to round: every equation's values, on the near side of its solution for the values
// before it. A round moves its equation's values away from their constant: later ones of its sign stay near,
// later ones of the other sign may lie beyond and go back. Where nothing is dirty, it is the fixed point.
ghost use Rattle.std.specs.Prelude.{◌≡◌, ◌≤◌, ◌<◌, length};
ghost use Rattle.truth.specs.Bits.{bit_of};
ghost use Rattle.solving.specs.Rounds.{LastDirty, Begins, Rounds, Settles, Solved};

use crate::steps::{Progress, is_greatest, look};
use formulas::Equation;

// Every instance of the first `count` equations at the constant of its equation's sign, and all are dirty.
fn first_values(equations: [Equation; 8], count: usize, graph: &[u64]) -> Progress
    requires { count ≤ 8 }
    ensures { Begins equations count graph.now result }
{
    let none = truth::none();
    let mut truth = none;
    let mut dirty = none;
    for e in 0..count {
        // By a local: the check covers no result of a call that is laid in an array at once.
        let d = truth::with_unlike(dirty, graph, 1024 + e, none, true);
        dirty = d;
        if is_greatest(equations, e) {
            let t = truth::with_unlike(truth, graph, 1024 + e, none, true);
            truth = t;
        }
    }
    Progress {
        truth,
        dirty,
        left: 131072,
        changed: false,
    }
}

// The last dirty instance of the last of the first `count` equations that has one.
fn last_dirty(graph: &[u64], count: usize, dirty: [u64; 8]) -> Option<usize>
    requires { count ≤ 8 }
    ensures { LastDirty graph.now count (bit_of dirty) result }
{
    for e in (0..count).rev() {
        if let Some(j) = truth::last_unlike(graph, 1024 + e, dirty, false) {
            return Some(j);
        }
    }
    None
}

// Looks at a dirty instance, and then at those of its equation until it has none, or no look is left.
fn round(
    bodies: &[u8],
    equations: [Equation; 8],
    table: &[u32],
    graph: &[u64],
    p: Progress,
    first: usize,
) -> Progress
    requires { (first < length table.now) × (0 < p.left) }
    ensures { Rounds bodies.now equations table.now
        graph.now first p result }
{
    let e = words::equation_number(table[first]);
    let mut s = look(bodies, equations, table, graph, p, first);
    while let Some(j) = truth::last_unlike(graph, 1024 + e, s.dirty, false) {
        if s.left == 0 || table.len() <= j {
            return s;
        }
        s = look(bodies, equations, table, graph, s, j);
    }
    s
}

// The end of a round of equation e: where something changed, the later equations of the other sign are set
// back. Nothing has changed in the next round.
fn settle(equations: [Equation; 8], count: usize, graph: &[u64], e: usize, p: Progress) -> Progress
    requires { (count ≤ 8) × (e < 65536) }
    ensures { Settles equations count graph.now e p result }
{
    let mut s = Progress {
        changed: false,
        ..p
    };
    if !p.changed {
        return s;
    }
    let sign = is_greatest(equations, e);
    for m in e + 1..count {
        if is_greatest(equations, m) != sign {
            s = s.set_back(graph, m, !sign);
        }
    }
    s
}

// All equations solved by rounds; None where the looks do not last, or a dirty number is past the table.
pub(crate) fn all_rounds(
    bodies: &[u8],
    equations: [Equation; 8],
    count: usize,
    table: &[u32],
    graph: &[u64],
) -> Option<[u64; 8]>
    requires { count ≤ 8 }
    ensures { Solved bodies.now equations count table.now
        graph.now result }
{
    let mut s = first_values(equations, count, graph);
    while let Some(j) = last_dirty(graph, count, s.dirty) {
        if s.left == 0 || table.len() <= j {
            return None;
        }
        let looked = round(bodies, equations, table, graph, s, j);
        s = settle(
            equations,
            count,
            graph,
            words::equation_number(table[j]),
            looked,
        );
    }
    Some(s.truth)
}
