// Whether a frame is refused, and why, after `count` equations and perhaps the start.
ghost use Rattle.std.specs.Prelude.{◌≡◌, not};
ghost use Rattle.reading.specs.Contract.{number_in};
ghost use Rattle.reading.specs.Reading.{equation_refusal, start_refusal, frame_refusal};

use crate::heads::{equation_record, is_valid_head};
use refusals::Reason;

fn judge_equation(frame: &[u8], count: usize, started: bool) -> Result<(), Reason>
    ensures { number_in result ≡ equation_refusal count (not started) frame.now }
{
    if started || 8 <= count {
        return Err(Reason::OutOfPlace);
    }
    let e = equation_record(frame, 0);
    if !is_valid_head(frame.len(), e) {
        return Err(Reason::WrongHead);
    }
    let head = 3 + usize::from(e.k);
    if !formulas::is_body(&frame[head..], e) {
        return Err(Reason::NoFormula);
    }
    Ok(())
}

fn judge_start(frame: &[u8], count: usize, started: bool) -> Result<(), Reason>
    ensures { number_in result ≡ start_refusal count (not started) frame.now }
{
    if started || count == 0 {
        return Err(Reason::OutOfPlace);
    }
    if frame.len() < 2 {
        return Err(Reason::WrongHead);
    }
    Ok(())
}

// Kinds as numbers: they are the bytes of the format.
pub(crate) fn judge_frame(frame: &[u8], count: usize, started: bool) -> Result<(), Reason>
    ensures { number_in result ≡ frame_refusal count (not started) frame.now }
{
    match basics::element(frame, 0) {
        1 => judge_equation(frame, count, started),
        2 => judge_start(frame, count, started),
        3 => Ok(()),
        _ => Err(Reason::OutOfPlace),
    }
}
