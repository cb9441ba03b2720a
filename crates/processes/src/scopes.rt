// Whether each variable of a formula stands within its fixed point, and each action is at most 15. The codes
// are gone through one after the other; where each fixed point ends is kept.
ghost use Rattle.std.specs.Prelude.{◌≡◌, ◌+◌, ◌≤◌, length};
ghost use Rattle.processes.specs.Ends.{action_stands, variable_stands, WellFormedTold};

use crate::modals::{modal_end, width_at};

// Whether what stands at a place is no box and no diamond, or one whose action is at most 15. By the words of
// `basics`: what they promise holds what each translation runs.
fn action_fits(frame: &[u8], at: usize) -> bool
    requires { at ≤ 512 }
    ensures { result ≡ action_stands frame.now at }
{
    let code = basics::element(frame, at);
    let after = basics::and(0x30 <= code, code <= 0x31);
    let named = basics::and(after, basics::element(frame, at + 1) != 0x11);
    basics::implies(named, basics::element(frame, at + 2) <= 15)
}

// Whether what stands at a place is no variable, or that of one of the first fixed points which ends later,
// where `ends` is where these end.
#[tactic(auto, unfolding(crate::specs::Ends::variable_stands))]
fn variable_fits(frame: &[u8], at: usize, ends: &[usize]) -> bool
    requires { at ≤ 512 }
    ensures { result ≡
        variable_stands frame.now at ends.now (length ends.now) }
{
    if basics::element(frame, at) != 0x34 {
        return true;
    }
    let n = usize::from(basics::element(frame, at + 1));
    n < ends.len() && at < ends[n]
}

// Of a frame that holds a formula.
pub(crate) fn is_well_formed(frame: &[u8]) -> bool
    requires { length frame.now ≤ 256 }
    ensures { WellFormedTold frame.now result }
{
    // Fixed memory, no heap: of these the first `count` are known, and only as a slice are they handed on.
    let mut ends = [0usize; 256];
    let mut count: usize = 0;
    let mut at: usize = 1;
    // A while: the step is the code's width.
    while at < frame.len() {
        let Some(width) = width_at(frame, at) else {
            return false;
        };
        if scans::is_fixed(basics::element(frame, at)) {
            let Some(end) = modal_end(frame, at + 1) else {
                return false;
            };
            ends[count] = end;
            count += 1;
        }
        let fits = variable_fits(frame, at, &ends[..count]);
        if !fits || !action_fits(frame, at) {
            return false;
        }
        at += width;
    }
    true
}
