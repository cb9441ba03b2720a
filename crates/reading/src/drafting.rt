// The model and the bodies as they grow, from no frame on, by one frame after another.
ghost use Rattle.std.specs.Prelude.{◌≡◌, [], ℕ, ◌≤◌, ◌<◌, length, get_or};
ghost use Rattle.reading.specs.Contract.{draft_told, with_equation, with_frame, body_kept};
ghost use Rattle.reading.specs.Records.{model_record};

use crate::Start;
use crate::heads::{equation_record, start_record};
use formulas::Equation;

// The first `count` of `equations` are the equations so far, the first `count` of `lines` are theirs: fixed
// memory, no heap.
#[derive(Clone, Copy)]
pub(crate) struct Draft {
    pub(crate) count: usize,
    pub(crate) equations: [Equation; 8],
    pub(crate) lines: [usize; 8],
    pub(crate) start: Option<Start>,
}

impl Draft {
    pub(crate) fn new() -> Draft
        ensures { (place : ℕ → ℕ) → draft_told result ≡ model_record place [] [] }
    {
        let e = Equation {
            sign: 0,
            k: 0,
            ranges: [0; 4],
            place: 0,
            length: 0,
        };
        Draft {
            count: 0,
            equations: [e; 8],
            lines: [0; 8],
            start: None,
        }
    }

    fn with_equation(mut self, line: usize, e: Equation) -> Draft
        requires { self.count < 8 }
        ensures { draft_told result ≡ with_equation (draft_told self) line e }
    {
        self.equations[self.count] = e;
        self.lines[self.count] = line;
        self.count += 1;
        self
    }

    // The draft with a frame that is not refused, of the line that begins at `place`.
    pub(crate) fn with_frame(self, frame: &[u8], line: usize, place: usize) -> Draft
        requires { (place ≤ 32768) × (get_or frame.now 0 0 ≡ 1 → self.count < 8) }
        ensures { draft_told result ≡ with_frame (draft_told self) line place frame.now }
    {
        match basics::element(frame, 0) {
            1 => self.with_equation(line, equation_record(frame, place)),
            2 => Draft {
                start: Some(start_record(frame, line)),
                ..self
            },
            _ => self,
        }
    }
}

// Keeps the body of a frame as that of equation j, where the frame is an equation's.
pub(crate) fn keep_body(bodies: &mut [u8; 2048], frame: &[u8], j: usize)
    requires { (length frame.now ≤ 256) × (get_or frame.now 0 0 ≡ 1 → j < 8) }
    ensures { bodies.new ≡ body_kept bodies.old j frame.now }
{
    if basics::element(frame, 0) != 1 {
        return;
    }
    let head = 3 + usize::from(basics::element(frame, 2));
    let body = &frame[head.min(frame.len())..];
    let first = 256 * j;
    bodies[first..first + body.len()].copy_from_slice(body);
}
