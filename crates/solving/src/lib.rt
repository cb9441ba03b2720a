// The truth of the reached instances: by rounds with a set of dirty instances, and by the nested solver where
// these would take too long.
#![tactic(auto)]

mod rounds;
mod steps;

ghost use Rattle.solving.specs.Promise.{Solves};

use formulas::Equation;
use rounds::all_rounds;

// The truth of the instances of a table with its graph, by the first `count` equations.
pub fn solution_of(
    bodies: &[u8],
    equations: [Equation; 8],
    count: usize,
    table: &[u32],
    graph: &[u64],
) -> [u64; 8]
    ensures { Solves bodies.now equations count table.now
        graph.now result }
{
    if let Some(truth) = all_rounds(bodies, equations, count.min(8), table, graph) {
        return truth;
    }
    nested::nested_solution(bodies, equations, count, table)
}
