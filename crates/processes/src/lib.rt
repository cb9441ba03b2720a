// The reader of processes: any text in, a refusal with its line or the frames of a process and a formula out.
#![tactic(auto)]

mod modals;
mod scopes;
mod summands;

ghost use Rattle.std.specs.Prelude.{◌≡◌, ◌*◌, ◌≤◌, length, take, replicate};
ghost use Rattle.std.proofs.lemmas.List.Edits.{sets};
ghost use Rattle.frames.specs.Frames.{frames};
ghost use Rattle.inputs.specs.Inputs.{count_of, all_judged, input_refusal};
ghost use Rattle.inputs.specs.Sheet.{slot_of};
ghost use Rattle.processes.specs.Contract.{LinesChecked, is_next, SheetRead};
ghost use Rattle.processes.specs.Kept.{input, told};

use modals::is_formula;
use refusals::{Reason, Refusal};
use summands::{is_process, is_summand};

// The first line that is refused as `NoDigit` or `NoLine`. This walk stands here, below and in `reading`:
// what is kept differs in each, and the step is one call of `frame_at`.
fn check_lines(text: &[u8]) -> Result<(), Refusal>
    requires { length text.now ≤ 32768 }
    ensures { LinesChecked text.now result }
{
    let mut at = 0;
    let mut line = 1;
    // A while: the step is the length of the line.
    while at < text.len() {
        let f = frames::frame_at(text, at);
        if let Err(reason) = f.frame {
            return Err(Refusal { reason, line });
        }
        at = f.end + 1;
        line += 1;
    }
    Ok(())
}

// Whether a frame keeps the rules after `count` frames that are no notes, the last of them the formula where
// `whole`; the process, where there is one, stands first in the sheet.
// Kept as a clause here and below: in a struct with these bytes every contract would name the bytes behind a
// field of the value that came in, `frame.entry.bytes.now`. Codes as numbers: they are the format's bytes.
#[tactic(auto, unfolding(crate::specs::Contract::is_next))]
fn keeps_rules(sheet: &[u8; 4608], frame: &[u8], count: usize, whole: bool) -> bool
    requires { (count_of (take 256 sheet.now) ≤ 4) × (length frame.now ≤ 256) }
    ensures { result ≡ is_next sheet.now frame.now count whole }
{
    let open = 1 <= count && !whole;
    match basics::element(frame, 0) {
        3 => true,
        9 => count == 0 && is_process(frame),
        7 => open && count <= 16 && is_summand(&sheet[..256], frame),
        8 => open && is_formula(frame),
        _ => false,
    }
}

// Where the frame is kept that comes after `count` others that are no notes.
fn slot_of(code: u8, count: usize) -> usize
    ensures { result ≡ slot_of code count }
{
    if code == 8 { 17 } else { count.min(16) }
}

// Keeps a frame in the sheet. Two lines, as in `keep_body` of `reading`: the places and what is kept differ.
fn keep(sheet: &mut [u8; 4608], slot: usize, frame: &[u8])
    requires { (slot ≤ 17) × (length frame.now ≤ 256) }
    ensures { sheet.new ≡ sets sheet.old (256 * slot) frame.now }
{
    let first = 256 * slot;
    sheet[first..first + frame.len()].copy_from_slice(frame);
}

// The frames of a text whose lines are valid, from the top: kept in the sheet up to the first that breaks the
// rules. Where the formula is missing, the line is one past the last.
fn read_frames(text: &[u8], sheet: &mut [u8; 4608]) -> Result<(), Refusal>
    requires { (length text.now ≤ 32768) × ((frames text.now).number ≡ 0) ×
        (sheet.old ≡ replicate 4608 0) }
    ensures { SheetRead text.now (all_judged text.now).refusal
        sheet.new result }
{
    let mut count: usize = 0;
    let mut whole = false;
    let mut at = 0;
    let mut line = 1;
    // A while: the step is the length of the line.
    while at < text.len() {
        let f = frames::frame_at(text, at);
        let frame = match f.frame {
            Ok(frame) => frame,
            Err(reason) => return Err(Refusal { reason, line }),
        };
        let bytes = &frame.bytes[..frame.size];
        if !keeps_rules(sheet, bytes, count, whole) {
            return Err(Refusal {
                reason: Reason::NoProcess,
                line,
            });
        }
        let code = basics::element(bytes, 0);
        if code != 3 {
            keep(sheet, slot_of(code, count), bytes);
            count += 1;
            whole = code == 8;
        }
        at = f.end + 1;
        line += 1;
    }
    if whole {
        Ok(())
    } else {
        Err(Refusal {
            reason: Reason::NoProcess,
            line,
        })
    }
}

// `TextTooLong` first, then `NoDigit` and `NoLine` over the whole text, then `NoProcess`.
fn read_lines(text: &[u8], sheet: &mut [u8; 4608]) -> Result<(), Refusal>
    requires { sheet.old ≡ replicate 4608 0 }
    ensures { SheetRead text.now (input_refusal text.now)
        sheet.new result }
{
    if 32768 < text.len() {
        return Err(Refusal::from(Reason::TextTooLong));
    }
    check_lines(text)?;
    read_frames(text, sheet)
}

// The sheet has 18 places of 256 bytes: in the first the process, then the summands, in the last the formula;
// zeros where nothing is.
pub fn read_input(text: &[u8]) -> Result<[u8; 4608], Refusal>
    ensures { told result ≡ input text.now }
{
    let mut sheet = [0u8; 4608];
    read_lines(text, &mut sheet)?;
    Ok(sheet)
}
