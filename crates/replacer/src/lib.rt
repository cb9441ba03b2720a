// A model's text with one right side replaced, notes and order kept, written into a lent buffer.
#![tactic(auto)]

mod command;

ghost use Rattle.std.specs.Prelude.{◌≡◌, ◌++◌, ◌+◌, ◌-◌, ◌*◌, ◌≤◌, length, take, drop};
ghost use Rattle.std.proofs.lemmas.List.Edits.{sets};
ghost use Rattle.frames.specs.Frames.{line_of};
ghost use Rattle.formulas.specs.Bodies.{signatures_of};
ghost use Rattle.writing.specs.Writing.{reply_to};
ghost use Rattle.replacer.specs.Contract.{side_judged};
ghost use Rattle.replacer.specs.Replaced.{Replaces};

pub use command::print_replacement;
use formulas::Equation;
use refusals::{Reason, Refusal};
use writing::Writing;

// Judges a new right side of e: the first of 3, 6 and 7 that refuses it, if one does. Equations and
// their count are two parameters, since `formulas::is_fitting` asks for the two.
fn judge_side(
    side: &[u8],
    e: Equation,
    equations: [Equation; 8],
    count: usize,
) -> Result<(), Reason>
    requires { e.k ≤ 4 }
    ensures { result ≡ side_judged side.now e (signatures_of equations count) }
{
    let most = 253 - usize::from(e.k);
    if most < side.len() {
        return Err(Reason::NoLine);
    }
    if !formulas::is_body(side, e) {
        return Err(Reason::NoFormula);
    }
    if !formulas::is_fitting(side, e, equations, count) {
        return Err(Reason::WrongInstance);
    }
    Ok(())
}

// Writes a text with a new right side of e: what stands before the old one, the line of the new one, and what
// follows from the next line on.
fn write_parts(text: &[u8], e: Equation, side: &[u8], out: &mut [u8])
    requires { (e.place + (2 * e.length + 1) ≤ length text.now) ×
        (length text.now + 2 * length side.now ≤ length out.old + 2 * e.length) }
    ensures { out.new ≡ sets out.old 0 (take e.place text.now ++
        (line_of side.now ++ drop (e.place + (2 * e.length + 1)) text.now)) }
{
    writing::put(out, 0, &text[..e.place]);
    let next = frames::put_line(out, e.place, side);
    let from = e.place + (2 * e.length + 1);
    writing::put(out, next, &text[from..]);
}

// Replaces the right side of an equation, and gives the length of the text written.
fn replaced(text: &[u8], equation: usize, side: &[u8], out: &mut [u8]) -> Result<usize, Refusal>
    ensures { Replaces text.now equation side.now out.old
        (reply_to result) out.new }
{
    let model = reading::read_model(text)?.model;
    if model.count <= equation {
        return Err(Refusal::from(Reason::NoEquation));
    }
    let e = model.equations[equation];
    let line = model.lines[equation];
    // No right side of more bytes fits into a text.
    let added = side.len().min(16385);
    let size = text.len() - 2 * e.length + 2 * added;
    if 32768 < size {
        return Err(Refusal::from(Reason::TextTooLong));
    }
    judge_side(side, e, model.equations, model.count).map_err(|reason| Refusal { reason, line })?;
    if out.len() < size {
        return Err(Refusal::from(Reason::ShortBuffer));
    }
    write_parts(text, e, side, out);
    Ok(size)
}

// Replaces the right side of an equation. Nothing is written on a refusal.
pub fn replace(text: &[u8], equation: usize, side: &[u8], out: &mut [u8]) -> Writing
    ensures { Replaces text.now equation side.now out.old result
        out.new }
{
    Writing::from(replaced(text, equation, side, out))
}
