// What comes after the lines: `OutOfPlace` where the start is missing, then `WrongInstance` by line, then
// `WrongStart`.
ghost use Rattle.std.specs.Prelude.{◌≡◌, ◌&&◌, ℕ, ◌≤◌, ◌<◌, leb, length, take, get_or};
ghost use Rattle.meaning.specs.Ranges.{within};
ghost use Rattle.formulas.specs.Bodies.{blank, ranges_of};
ghost use Rattle.reading.specs.Contract.{draft_told, is_start, FirstMisfit, Finishes};
ghost use Rattle.reading.specs.Records.{model_told};

use crate::drafting::Draft;
use crate::{Model, Start};
use formulas::Equation;
use refusals::{Reason, Refusal};

// The number of the first equation whose instances do not fit.
fn first_misfit(bodies: &[u8; 2048], m: Model) -> Option<usize>
    requires { (m.count ≤ 8) × ((j : ℕ) → j < m.count → (get_or m.equations j blank).length ≤ 256) }
    ensures { FirstMisfit (model_told m) bodies.now result }
{
    for j in 0..m.count {
        let e = m.equations[j];
        let first = 256 * j;
        let end = first + e.length;
        if !formulas::is_fitting(&bodies[first..end], e, m.equations, m.count) {
            return Some(j);
        }
    }
    None
}

// Whether there are as many arguments as e has parameters, each below its range.
fn start_fits(s: Start, e: Equation) -> bool
    ensures { result ≡ leb s.count 4 && within (take s.count s.arguments) (ranges_of e) }
{
    // By the words of `basics`, here and in `equation_record`: what they promise holds what each check runs.
    let k = basics::smaller(basics::wide(e.k), 4);
    if s.count != k {
        return false;
    }
    (0..k).all(|i| s.arguments[i] < e.ranges[i])
}

fn is_valid_start(m: Model) -> bool
    requires { m.count ≤ 8 }
    ensures { result ≡ is_start (model_told m) }
{
    let i = usize::from(m.start.equation);
    i < m.count && start_fits(m.start, m.equations[i])
}

// The missing start stands at the line after the last.
pub(crate) fn finish(bodies: &[u8; 2048], draft: Draft, line: usize) -> Result<Model, Refusal>
    requires { (draft.count ≤ 8) ×
        ((j : ℕ) → j < draft.count → (get_or draft.equations j blank).length ≤ 256) }
    ensures { Finishes (draft_told draft) bodies.now line result }
{
    let Draft {
        count,
        equations,
        lines,
        start,
    } = draft;
    let start = start.ok_or(Refusal {
        reason: Reason::OutOfPlace,
        line,
    })?;
    let model = Model {
        count,
        equations,
        lines,
        start,
    };
    if let Some(j) = first_misfit(bodies, model) {
        return Err(Refusal {
            reason: Reason::WrongInstance,
            line: lines[j],
        });
    }
    if !is_valid_start(model) {
        return Err(Refusal {
            reason: Reason::WrongStart,
            line: start.line,
        });
    }
    Ok(model)
}
