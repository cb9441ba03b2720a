// The frames of a text, line by line: read, and written.
#![tactic(auto)]

ghost use Rattle.std.specs.Prelude.{ℕ, ◌≡◌, ◌+◌, ◌-◌, ◌*◌, ◌≤◌, ◌<◌, leb, length, drop};
ghost use Rattle.std.proofs.lemmas.List.Edits.{sets};
ghost use Rattle.digits.specs.Digits.{digits_of};
ghost use Rattle.frames.specs.Lines.{all_digits, is_valid_size};
ghost use Rattle.frames.specs.FrameAt.{first_length, told_at, told, frame_of, frame_at};
ghost use Rattle.frames.specs.PutLine.{LinePut};

use refusals::Reason;

// The first `size` of the bytes; zeros after them. Memory is fixed, so it is an array with a size.
#[derive(Clone, Copy)]
pub struct Frame {
    pub bytes: [u8; 256],
    pub size: usize,
}

// What stands in the line from a place on: where the line ends, and its frame or why it has none.
#[derive(Clone, Copy)]
pub struct FrameAt {
    pub end: usize,
    pub frame: Result<Frame, Reason>,
}

// Where the line that starts at `at` ends: at its 0a, or at the end of the text.
fn line_end(text: &[u8], at: usize) -> usize
    requires { at ≤ length text.now }
    ensures { (result ≡ at + first_length (drop at text.now)) ×
        ((at ≤ result) × (result ≤ length text.now)) }
{
    let rest = &text[at..];
    at + rest.iter().position(|c| *c == 10).unwrap_or(rest.len())
}

// Whether all of some characters are digits.
pub fn all_digits(characters: &[u8]) -> bool
    ensures { result ≡ all_digits characters.now }
{
    characters.iter().all(|c| digits::worth(*c) <= 15)
}

// Whether a line of `size` characters is ended by 0a, not empty, and has an even number of them, at most 512.
fn is_valid_line(size: usize, ended: bool) -> bool
    ensures { result ≡ is_valid_size size ended }
{
    ended && 1 <= size && size <= 512 && size % 2 == 0
}

// The frame of a line, or what it is refused for: a character that is no digit before everything else.
fn frame_of(line: &[u8], ended: bool) -> Result<Frame, Reason>
    ensures { (end : ℕ) → told_at end result ≡ frame_of line.now ended end }
{
    if !all_digits(line) {
        return Err(Reason::NoDigit);
    }
    if !is_valid_line(line.len(), ended) {
        return Err(Reason::NoLine);
    }
    Ok(Frame {
        bytes: digits::bytes(line),
        size: line.len() / 2,
    })
}

// The frame of the line that begins at `at`.
pub fn frame_at(text: &[u8], at: usize) -> FrameAt
    ensures { told result ≡ frame_at text.now at }
{
    let from = at.min(text.len());
    let end = line_end(text, from);
    let ended = end < text.len();
    FrameAt {
        end,
        frame: frame_of(&text[from..end], ended),
    }
}

// Whether a line of `count` bytes, two characters each and its end, fits into `room` characters from `at` on.
fn fits(room: usize, at: usize, count: usize) -> bool
    ensures { result ≡ leb (at + (2 * count + 1)) room }
{
    let left = room.saturating_sub(at);
    count < left - left / 2
}

// Writes a byte as two small digits.
fn put_byte(out: &mut [u8], at: usize, b: u8)
    requires { at + 1 < length out.old }
    ensures { out.new ≡ sets out.old at (digits_of b) }
{
    out[at] = digits::digit(b / 16);
    out[at + 1] = digits::digit(b % 16);
}

// Writes the line of some bytes from a place on and gives the place after it. Where the line does not fit,
// nothing is written and the place stays. Kept as a place: `LinePut` promises `at` there.
pub fn put_line(out: &mut [u8], at: usize, bytes: &[u8]) -> usize
    ensures { LinePut out.old at bytes.now result out.new }
{
    if !fits(out.len(), at, bytes.len()) {
        return at;
    }
    let mut place = at;
    for b in bytes {
        put_byte(out, place, *b);
        place += 2;
    }
    out[place] = 10;
    place + 1
}
