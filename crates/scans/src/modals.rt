// The formula of a sheet: its last place, whose bytes are counted from 0.
ghost use Rattle.std.specs.Prelude.{◌≡◌, ◌<◌, IfSome, unwrap_or};
ghost use Rattle.scans.specs.Formulas.{is_fixed, parts_of, after_width, code_width, width_at};
ghost use Rattle.scans.specs.Formulas.{Skips, Finds};

use crate::Skipped;

// Whether a code begins a fixed point.
#[tactic(auto, unfolding(crate::specs::Formulas::is_fixed))]
pub fn is_fixed(code: u8) -> bool
    ensures { result ≡ is_fixed code }
{
    matches!(code, 0x32 | 0x33)
}

// How many formulas follow a code.
#[tactic(auto, unfolding(crate::specs::Formulas::parts_of))]
pub fn parts_of(code: u8) -> usize
    ensures { result ≡ parts_of code }
{
    match code {
        0x12 | 0x13 => 2,
        0x30..=0x33 => 1,
        _ => 0,
    }
}

// How many bytes a box or a diamond takes with its actions, which begin with this byte: `11`, or a code and
// an action.
#[tactic(auto, unfolding(crate::specs::Formulas::after_width))]
fn after_width(first: u8) -> Option<usize>
    ensures { result ≡ after_width first }
{
    match first {
        0x11 => Some(2),
        0x35 | 0x36 => Some(3),
        _ => None,
    }
}

// How many bytes a code takes with its operands, where `behind` is the byte behind it; none where it is no
// code of a formula, or where no actions begin behind a box or a diamond.
#[tactic(auto, unfolding(crate::specs::Formulas::code_width))]
pub fn code_width(code: u8, behind: u8) -> Option<usize>
    ensures { result ≡ code_width code behind }
{
    match code {
        0x10..=0x13 | 0x32 | 0x33 => Some(1),
        0x30 | 0x31 => after_width(behind),
        0x34 => Some(2),
        _ => None,
    }
}

// The width of the code at a place; where it has none, 3 for a box or a diamond, else 1: each step goes on.
#[tactic(auto, unfolding(crate::specs::Formulas::width_at))]
fn width_at(sheet: &[u8], at: usize) -> usize
    requires { at < 256 }
    ensures { result ≡ width_at sheet.now at }
{
    let code = basics::element(sheet, 4352 + at);
    let behind = basics::element(sheet, 4353 + at);
    let otherwise = if matches!(code, 0x30 | 0x31) { 3 } else { 1 };
    code_width(code, behind).unwrap_or(otherwise)
}

// The formula at a place, up to its end. Kept beside `part_end`: the tables are others, and fixed points are
// counted.
pub fn skip(sheet: &[u8], at: u8) -> Skipped
    ensures { Skips sheet.now at result }
{
    let mut next = usize::from(at);
    let mut count: usize = 0;
    let mut pending: usize = 1;
    // A while: the step is the code's width.
    while 0 < pending && next < 256 {
        let code = basics::element(sheet, 4352 + next);
        if is_fixed(code) {
            count += 1;
        }
        pending = pending + parts_of(code) - 1;
        next += width_at(sheet, next);
    }
    Skipped { next, count }
}

// The place of the code of a fixed point, by its number; none where there are not so many.
pub fn find_fixed(sheet: &[u8], number: usize) -> Option<usize>
    ensures within { IfSome result (λ at. at < 256) }
    ensures found { Finds sheet.now number (unwrap_or result 256) }
{
    let mut left = number;
    let mut at: usize = 1;
    // A while: the step is the code's width.
    while at < 256 {
        if is_fixed(basics::element(sheet, 4352 + at)) {
            if left == 0 {
                return Some(at);
            }
            left -= 1;
        }
        at += width_at(sheet, at);
    }
    None
}
