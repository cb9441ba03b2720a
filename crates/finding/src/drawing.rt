// Drawing the graph: what an instance reads, the same turned round, its equation, and whether its right side
// is plain.
ghost use Rattle.std.specs.Prelude.{true};
ghost use Rattle.finding.specs.Drawn.{Drawable, Notable, Notes, NotesReaders, DrawsSide};

use gathering::Shape;

// Row i gets instance j.
fn note(graph: &mut [u64], i: usize, j: usize)
    requires { Notable graph.old i j }
    ensures { Notes graph.old graph.new i j true }
{
    truth::mark(graph, i * 512 + j);
}

// Instance j is a reader of each instance that stands in its row.
fn note_readers(graph: &mut [u64], j: usize)
    requires { Drawable graph.old j }
    ensures { NotesReaders graph.old graph.new j }
{
    let mut done = truth::none();
    while let Some(k) = truth::last_unlike(graph, j, done, true) {
        note(graph, 512 + k, j);
        // By a local: the check covers no result of a call that is laid in an array at once.
        let more = truth::put(done, k, true);
        done = more;
    }
}

// Instance j, of equation e, is drawn: what it reads, who reads that, and how it is joined.
pub(crate) fn draw_side(graph: &mut [u64], j: usize, e: usize, reads: [u64; 8], shape: Shape)
    ensures { DrawsSide graph.old graph.new j e reads shape }
{
    // A list of another length is left: `DrawsSide` and `Finds` say what the rows are only where it has
    // this one.
    if graph.len() != 8272 || 512 <= j || 8 <= e {
        return;
    }
    truth::put_row(graph, j, reads);
    note_readers(graph, j);
    note(graph, 1024 + e, j);
    if gathering::is_plain(shape, true) {
        note(graph, 1032, j);
    }
    if gathering::is_plain(shape, false) {
        note(graph, 1033, j);
    }
}
