// Finding the reached instances of a model: from the start on, those that are left in the right sides of the
// instances found, in the order of finding. What each of them reads is drawn as a graph on the way.
#![tactic(auto)]

mod drawing;

ghost use Rattle.std.specs.Prelude.{◌≤◌, min, length};
ghost use Rattle.finding.specs.Found.{told, FindsBefore, Finds};

use drawing::draw_side;
use formulas::Equation;

// Finds the reached instances from the one with the word `start`, in order, as far as there is room in the
// table, and draws their graph: how many they are, and None where one more was found than there is room.
// Anything may be left behind the words found.
fn find_in(
    bodies: &[u8],
    equations: [Equation; 8],
    start: u32,
    table: &mut [u32],
    graph: &mut [u64],
) -> Option<usize>
    requires { length table.old ≤ 512 }
    ensures { FindsBefore bodies.now equations start (length table.old)
        table.new graph.old graph.new (told (length table.old) result) }
{
    let room = table.len();
    if room == 0 {
        return None;
    }
    table[0] = start;
    let mut found = 1;
    let mut i = 0;
    // A while: the words found grow on the way.
    while i < found {
        let w = table[i];
        let side = gathering::gather_side(bodies, equations, w, table, found);
        if room < side.found {
            return None;
        }
        draw_side(graph, i, words::equation_number(w), side.reads, side.shape);
        found = side.found;
        i += 1;
    }
    Some(found)
}

// Finds at most 512 of them, and leaves the rest of the table as it is: so the search has words of its own,
// of which those found are copied.
pub fn find(
    bodies: &[u8],
    equations: [Equation; 8],
    start: u32,
    table: &mut [u32],
    graph: &mut [u64],
) -> Option<usize>
    ensures { Finds bodies.now equations start (min (length table.old) 512)
        table.old table.new graph.old graph.new (told (min (length table.old) 512) result) }
{
    let mut words = [0u32; 512];
    let room = table.len().min(512);
    let found = find_in(bodies, equations, start, &mut words[..room], graph);
    let count = found.unwrap_or(room);
    table[..count].copy_from_slice(&words[..count]);
    found
}
