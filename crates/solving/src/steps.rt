// The steps of a round: one instance is looked at, and the instances of one equation are set back.
ghost use Rattle.std.specs.Prelude.{◌≡◌, ◌≤◌, ◌<◌, length};
ghost use Rattle.truth.specs.Bits.{bit_of};
ghost use Rattle.instances.specs.Sides.{is_greatest};
ghost use Rattle.solving.specs.Rounds.{plain_of, SideJudged, Looks, PutsBack, SetsBack};

use formulas::Equation;

// A set that comes nearer to the solution, the instances that are dirty, how many looks are left, and whether
// an instance has changed in this round. An instance that is not dirty has its right side.
#[derive(Clone, Copy)]
pub(crate) struct Progress {
    pub truth: [u64; 8],
    pub dirty: [u64; 8],
    pub left: usize,
    pub changed: bool,
}

// Whether equation e is a greatest one; one that is not there is not.
pub(crate) fn is_greatest(equations: [Equation; 8], e: usize) -> bool
    ensures { result ≡ is_greatest equations e }
{
    if 8 <= e {
        return false;
    }
    equations[e].sign == 1
}

// The `and` (the `or`, where `all` is false) of the instances that instance j reads.
fn plain_value(graph: &[u64], j: usize, t: [u64; 8], all: bool) -> bool
    ensures { result ≡ plain_of graph.now j (bit_of t) all }
{
    match truth::last_unlike(graph, j, t, all) {
        None => all,
        Some(_) => !all,
    }
}

// The right side of instance j in the set t: a plain one by what it reads, another one from its body.
fn side_value(
    bodies: &[u8],
    equations: [Equation; 8],
    table: &[u32],
    graph: &[u64],
    t: [u64; 8],
    j: usize,
) -> bool
    requires { j < length table.now }
    ensures { SideJudged bodies.now equations table.now
        graph.now t j result }
{
    if truth::row_has(graph, 1032, j) {
        return plain_value(graph, j, t, true);
    }
    if truth::row_has(graph, 1033, j) {
        return plain_value(graph, j, t, false);
    }
    instances::is_true(instances::right_side(bodies, equations, table[j], table, &t))
}

// Instance j is looked at: it goes to its right side, away from its constant, and its readers that are not
// there already are dirty then. It never goes back to its constant; if it did, it would stay dirty.
// What it looks at is passed part by part: as one struct, by value, solving took a fifth more instructions.
pub(crate) fn look(
    bodies: &[u8],
    equations: [Equation; 8],
    table: &[u32],
    graph: &[u64],
    p: Progress,
    j: usize,
) -> Progress
    requires { (j < length table.now) × (0 < p.left) }
    ensures { Looks bodies.now equations table.now graph.now j p result }
{
    let w = side_value(bodies, equations, table, graph, p.truth, j);
    let rest = truth::put(p.dirty, j, false);
    let left = p.left - 1;
    if w == truth::has(p.truth, j) {
        return Progress {
            dirty: rest,
            left,
            ..p
        };
    }
    if w == is_greatest(equations, words::equation_number(table[j])) {
        return Progress { left, ..p };
    }
    let truth = truth::put(p.truth, j, w);
    let dirty = truth::with_unlike(rest, graph, 512 + j, truth, w);
    Progress {
        truth,
        dirty,
        left,
        changed: true,
    }
}

impl Progress {
    // Instance j goes back to w; it and its readers that are not there are dirty then.
    fn put_back(self, graph: &[u64], j: usize, w: bool) -> Progress
        requires { j < 512 }
        ensures { PutsBack graph.now j w self result }
    {
        let truth = truth::put(self.truth, j, w);
        let more = truth::put(self.dirty, j, true);
        let dirty = truth::with_unlike(more, graph, 512 + j, truth, w);
        Progress {
            truth,
            dirty,
            ..self
        }
    }

    // The instances of equation m that are not at w go back to it.
    pub(crate) fn set_back(self, graph: &[u64], m: usize, w: bool) -> Progress
        requires { m < 8 }
        ensures { SetsBack graph.now m w self result }
    {
        let mut s = self;
        while let Some(j) = truth::last_unlike(graph, 1024 + m, s.truth, w) {
            s = s.put_back(graph, j, w);
        }
        s
    }
}
