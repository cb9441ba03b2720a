// The reader of model texts: any bytes in, a refusal with its line or a model out.
#![tactic(auto)]

mod drafting;
mod ending;
mod heads;
mod judging;

ghost use Rattle.std.specs.Prelude.{◌≡◌, replicate};
ghost use Rattle.reading.specs.Contract.{LinesRead};
ghost use Rattle.reading.specs.Records.{told, reading};

use drafting::{Draft, keep_body};
use ending::finish;
use formulas::Equation;
use frames::Frame;
use judging::judge_frame;
use refusals::{Reason, Refusal};

// A start's line, its equation, how many arguments it has, and the first four of them: fixed memory, no heap.
#[derive(Clone, Copy)]
pub struct Start {
    pub line: usize,
    pub equation: u8,
    pub count: usize,
    pub arguments: [u8; 4],
}

// The first `count` of `equations` are the equations, the first `count` of `lines` are theirs. Kept as two
// lists: `model_record` has two, and what solves a model takes the equations alone.
#[derive(Clone, Copy)]
pub struct Model {
    pub count: usize,
    pub equations: [Equation; 8],
    pub lines: [usize; 8],
    pub start: Start,
}

// The body of equation j stands from 256 * j on of `bodies`.
#[derive(Clone, Copy)]
pub struct Reading {
    pub model: Model,
    pub bodies: [u8; 2048],
}

// The lines of a text, from the top; the bodies of its equations are kept.
fn read_lines(text: &[u8], bodies: &mut [u8; 2048]) -> Result<Model, Refusal>
    requires { bodies.old ≡ replicate 2048 0 }
    ensures { LinesRead text.now bodies.new result }
{
    if 32768 < text.len() {
        return Err(Refusal::from(Reason::TextTooLong));
    }
    let mut draft = Draft::new();
    let mut at = 0;
    let mut line = 1;
    // A while: the step is the length of the line.
    while at < text.len() {
        let f = frames::frame_at(text, at);
        let Frame { bytes, size } = f.frame.map_err(|reason| Refusal { reason, line })?;
        let frame = &bytes[..size];
        judge_frame(frame, draft.count, draft.start.is_some()).map_err(|reason| Refusal {
            reason,
            line,
        })?;
        keep_body(bodies, frame, draft.count);
        // A note changes nothing, and to copy the draft for it would be most of what its line costs.
        if basics::element(frame, 0) != 3 {
            draft = draft.with_frame(frame, line, at);
        }
        at = f.end + 1;
        line += 1;
    }
    finish(bodies, draft, line)
}

pub fn read_model(text: &[u8]) -> Result<Reading, Refusal>
    ensures { told result ≡ reading text.now }
{
    let mut bodies = [0; 2048];
    let model = read_lines(text, &mut bodies)?;
    Ok(Reading { model, bodies })
}
