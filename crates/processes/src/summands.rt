// Whether a frame holds a process, or a summand of one.
ghost use Rattle.std.specs.Prelude.{◌≡◌, ◌++◌, ◌+◌, ◌≤◌, length};
ghost use Rattle.meaning.specs.Ranges.{all_ranges, within};
ghost use Rattle.formulas.specs.Tuples.{items};
ghost use Rattle.inputs.specs.Inputs.{is_process};
ghost use Rattle.processes.specs.SummandTests.{counted_bytes, four_bytes, following_bytes};
ghost use Rattle.processes.specs.SummandTests.{is_step, SummandJudged};

use formulas::Tuple;

// The bytes that stand behind the count of a frame, as many as it says and at most four, put after those in
// `got`.
fn with_ranges(frame: &[u8], got: Tuple) -> Tuple
    requires { got.count ≤ 4 }
    ensures { (items result ≡ items got ++ four_bytes frame.now) ×
        (result.count ≤ got.count + 4) }
{
    let count = usize::from(basics::element(frame, 1)).min(4);
    let mut all = got;
    for i in 0..count {
        all = formulas::push(all, basics::element(frame, 2 + i));
    }
    all
}

// Whether the bytes that stand behind the count of a frame, as many as it says, are ranges.
fn are_ranges(frame: &[u8]) -> bool
    ensures { result ≡ all_ranges (counted_bytes frame.now) }
{
    let count = usize::from(basics::element(frame, 1));
    (0..count).all(|i| formulas::is_range(basics::element(frame, 2 + i)))
}

// Whether the values that stand behind the ranges are below them.
fn are_below(frame: &[u8]) -> bool
    ensures { result ≡ within (following_bytes frame.now)
        (counted_bytes frame.now) }
{
    let count = usize::from(basics::element(frame, 1));
    (0..count).all(|i| basics::element(frame, 2 + count + i) < basics::element(frame, 2 + i))
}

// Whether a frame with first byte `09` is a process.
pub(crate) fn is_process(frame: &[u8]) -> bool
    ensures { result ≡ is_process frame.now }
{
    let count = usize::from(basics::element(frame, 1));
    if 4 < count || frame.len() != 2 + count + count {
        return false;
    }
    are_ranges(frame) && are_below(frame)
}

// Whether an action and the next-state terms stand from `at` on, up to the frame's end.
#[tactic(auto, unfolding(crate::specs::SummandTests::is_step))]
fn is_step(frame: &[u8], at: usize, scope: Tuple, parameters: Tuple) -> bool
    ensures { result ≡ is_step frame.now at (items scope) (items parameters) }
{
    0 < at
        && at < frame.len()
        && basics::element(frame, at) <= 15
        && formulas::terms_end(frame, at + 1, scope, parameters) == Some(frame.len())
}

// Whether a frame with first byte `07` is a summand of the process whose frame `process` begins with.
pub(crate) fn is_summand(process: &[u8], frame: &[u8]) -> bool
    requires { length frame.now ≤ 256 }
    ensures { SummandJudged process.now frame.now result }
{
    let own = usize::from(basics::element(frame, 1));
    if 4 < own || !are_ranges(frame) {
        return false;
    }
    let none = Tuple {
        values: [0; 8],
        count: 0,
    };
    let parameters = with_ranges(process, none);
    let scope = with_ranges(frame, parameters);
    let end = formulas::condition_end(frame, 2 + own, scope);
    end.is_some_and(|at| is_step(frame, at, scope, parameters))
}
