// What a frame says, as records: the head of an equation and whether it is valid, and a start.
ghost use Rattle.std.specs.Prelude.{◌≡◌, ◌≤◌, ◌<◌};
ghost use Rattle.meaning.specs.Ranges.{all_ranges};
ghost use Rattle.reading.specs.Contract.{is_head};
ghost use Rattle.reading.specs.Equations.{range_of};
ghost use Rattle.reading.specs.Records.{equation_record, start_record};

use crate::Start;
use formulas::Equation;

fn range_of(frame: &[u8], i: usize) -> u8
    requires { i < 4 }
    ensures { result ≡ range_of frame.now i }
{
    if i < usize::from(basics::element(frame, 2)) {
        basics::element(frame, 3 + i)
    } else {
        1
    }
}

// The record of an equation's frame whose first digit stands at `place`.
pub(crate) fn equation_record(frame: &[u8], place: usize) -> Equation
    requires { place ≤ 32768 }
    ensures { result ≡ equation_record place frame.now }
{
    let k = basics::element(frame, 2);
    let head = 3 + usize::from(k);
    let ranges = [
        range_of(frame, 0),
        range_of(frame, 1),
        range_of(frame, 2),
        range_of(frame, 3),
    ];
    Equation {
        sign: basics::element(frame, 1),
        k,
        ranges,
        place: place + 2 * head,
        length: basics::rest(frame.len(), head),
    }
}

fn are_ranges(r: [u8; 4]) -> bool
    ensures { result ≡ all_ranges r }
{
    r.iter().all(|r| formulas::is_range(*r))
}

// Whether a frame of `size` bytes with this record has a valid head.
pub(crate) fn is_valid_head(size: usize, e: Equation) -> bool
    ensures { result ≡ is_head size e }
{
    let head = 3 + usize::from(e.k);
    head <= size && e.sign <= 1 && e.k <= 4 && are_ranges(e.ranges)
}

pub(crate) fn start_record(frame: &[u8], line: usize) -> Start
    ensures { result ≡ start_record line frame.now }
{
    let arguments = [
        basics::element(frame, 2),
        basics::element(frame, 3),
        basics::element(frame, 4),
        basics::element(frame, 5),
    ];
    Start {
        line,
        equation: basics::element(frame, 1),
        count: frame.len().saturating_sub(2),
        arguments,
    }
}
