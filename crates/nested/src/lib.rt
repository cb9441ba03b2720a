// The nested solver: a numbered system of instances solved equation by equation, each by candidates that
// follow one another until none differs from the one before it.
#![tactic(auto)]

ghost use Rattle.std.specs.Prelude.{◌≡◌, ◌-◌, ◌≤◌, min, length, take};
ghost use Rattle.truth.specs.Bits.{bit_of, nowhere};
ghost use Rattle.instances.specs.Sides.{numbered_system};
ghost use Rattle.systems.specs.Solved.{next_candidate, Unsolved, solved};
ghost use Rattle.nested.specs.Candidates.{first_candidates};

use formulas::Equation;

// The numbered system of a table's instances, by the first `count` equations of a model.
#[derive(Clone, Copy)]
struct System<'a> {
    bodies: &'a [u8],
    equations: [Equation; 8],
    count: usize,
    table: &'a [u32],
    ghost few_words: { length table.now ≤ 512 },
    ghost few_equations: { count ≤ 8 },
}

impl System<'_> {
    // Every instance at the constant of its equation's sign: false for least, true for greatest.
    fn first_candidates(self) -> [u64; 8]
        ensures { bit_of result ≡ first_candidates self.entry.equations self.entry.count
            self.entry.table.now }
    {
        let mut s = truth::none();
        for (j, w) in self.table.iter().enumerate() {
            let e = words::equation_number(*w);
            if e < self.count {
                // By a local: the check covers no result of a call that is laid in an array at once.
                let put = truth::put(s, j, self.equations[e].sign == 1);
                s = put;
            }
        }
        s
    }

    // Equation e's instances at their right sides in the set `inner`.
    fn next_candidate(self, e: usize, inner: [u64; 8], current: [u64; 8]) -> [u64; 8]
        ensures { bit_of result ≡ next_candidate (numbered_system self.entry.bodies.now
            self.entry.equations self.entry.table.now) e (bit_of inner) (bit_of current) }
    {
        let mut s = current;
        for (j, w) in self.table.iter().enumerate() {
            if words::equation_number(*w) == e {
                let value = instances::right_side(
                    self.bodies,
                    self.equations,
                    *w,
                    self.table,
                    &inner,
                );
                // By a local: the check covers no result of a call that is laid in an array at once.
                let put = truth::put(s, j, instances::is_true(value));
                s = put;
            }
        }
        s
    }

    // The equations from e on, solved in the set t, where they are at their first candidates: for each
    // candidate of equation e the later ones anew. `current` keeps their first candidates, since the next
    // candidate of e changes e's instances alone; to go on from `inner` would carry values over from which
    // the fixed point for the next candidate can't be reached.
    fn solve(self, e: usize, t: [u64; 8]) -> [u64; 8]
        requires { (e ≤ self.count) × Unsolved (numbered_system self.bodies.now self.equations
            self.table.now) self.count e (bit_of t) }
        ensures { bit_of result ≡ solved (numbered_system self.entry.bodies.now self.entry.equations
            self.entry.table.now) (self.entry.count - e) e (bit_of t) }
    {
        if e == self.count {
            return t;
        }
        let mut current = t;
        for _ in self.table {
            let inner = self.solve(e + 1, current);
            let next = self.next_candidate(e, inner, current);
            if truth::same(next, current) {
                return inner;
            }
            current = next;
        }
        self.solve(e + 1, current)
    }
}

// The solution of the first 512 words of a table, by the first eight of so many equations.
pub fn nested_solution(
    bodies: &[u8],
    equations: [Equation; 8],
    count: usize,
    table: &[u32],
) -> [u64; 8]
    ensures { bit_of result ≡ solved (numbered_system bodies.now equations
        (take 512 table.now)) (min count 8) 0 nowhere }
{
    let size = table.len().min(512);
    let system = System {
        bodies,
        equations,
        count: count.min(8),
        table: &table[..size],
    };
    system.solve(0, system.first_candidates())
}
