// Whether a frame holds a formula: each code tells how many formulas stand inside it, so that one after the
// other they tell how many are still to come.
ghost use Rattle.std.specs.Prelude.{◌≡◌, ◌+◌, ◌≤◌, length, get_or};
ghost use Rattle.inputs.specs.Inputs.{is_formula};
ghost use Rattle.scans.specs.Formulas.{code_width};
ghost use Rattle.processes.specs.Ends.{ModalEnds};

use crate::scopes::is_well_formed;

// How many bytes the code at a place takes with what is no formula behind it.
pub(crate) fn width_at(frame: &[u8], at: usize) -> Option<usize>
    requires { at ≤ 512 }
    ensures { result ≡
        code_width (get_or frame.now at 0) (get_or frame.now (at + 1) 0) }
{
    scans::code_width(basics::element(frame, at), basics::element(frame, at + 1))
}

// Where the formula at a place ends.
pub(crate) fn modal_end(frame: &[u8], start: usize) -> Option<usize>
    requires { (length frame.now ≤ 256) × (start ≤ 256) }
    ensures { ModalEnds frame.now start result }
{
    let mut at = start;
    let mut left: usize = 1;
    // A while: the step is the code's width.
    while 0 < left {
        let width = width_at(frame, at)?;
        left = left - 1 + scans::parts_of(basics::element(frame, at));
        at += width;
    }
    Some(at)
}

// Whether a frame with first byte `08` is one formula, with each variable within its fixed point.
pub(crate) fn is_formula(frame: &[u8]) -> bool
    requires { length frame.now ≤ 256 }
    ensures { result ≡ is_formula frame.now }
{
    modal_end(frame, 1) == Some(frame.len()) && is_well_formed(frame)
}
