// The printed lines: what the checking program prints for a text, written into a lent buffer; and the same
// for a list that is solved.
#![tactic(auto)]

ghost use Rattle.std.specs.Prelude.{◌≡◌, ◌+◌, ◌*◌, ◌/◌, ◌≤◌, ◌<◌, length};
ghost use Rattle.refusals.specs.Numbers.{number_of};
ghost use Rattle.answers.specs.Answers.{refusal};
ghost use Rattle.answers.specs.Printed.{two_bytes, verdict_frame, refusal_frame};
ghost use Rattle.printing.specs.Promise.{Written, SolvedWritten};
ghost use Rattle.frames.specs.Frames.{line_of};
ghost use Rattle.frames.specs.PutLine.{Puts};
ghost use Rattle.printing.specs.Lines.{bytes_of, parameters_of, word_frame, word_lines};
ghost use Rattle.printing.specs.Lines.{Readable, PrintableResult, result_text};

use answers::Answer;
use engine::{Examined, Refused};
use formulas::Equation;
use refusals::Refusal;

// The bytes of a frame: the first `count`. Memory is fixed, and an instance's frame has as many as it has
// arguments and three.
#[derive(Clone, Copy)]
struct Frame {
    bytes: [u8; 8],
    count: usize,
}

impl Frame {
    // The frame of an instance: its equation, its arguments and its value.
    fn of_word(equations: [Equation; 8], word: u32, value: bool) -> Frame
        requires { (word / 65536 < 8) × (parameters_of equations word ≤ 4) }
        ensures { (bytes_of result ≡ word_frame equations word value) ×
            (result.count ≡ parameters_of equations word + 3) }
    {
        let e = words::equation_number(word);
        let arguments = words::argument_tuple(word, equations[e].k);
        let p = arguments.values;
        let k = arguments.count;
        let mut bytes = [4, e as u8, p[0], p[1], p[2], p[3], 0, 0];
        bytes[k + 2] = u8::from(value);
        Frame {
            bytes,
            count: k + 3,
        }
    }

    // Writes its line at a place, and gives the place after it.
    fn put(self, out: &mut [u8], at: usize) -> usize
        requires { (self.count ≤ 8) × (at + (2 * self.count + 1) ≤ length out.old) }
        ensures { Puts out.old at (line_of (bytes_of self)) result out.new }
    {
        frames::put_line(out, at, &self.bytes[..self.count])
    }
}

// The verdict's frame.
impl From<Answer> for Frame {
    ghost from_gives = { λ a f. (bytes_of f ≡ verdict_frame a) × (f.count ≡ 6) };

    fn from(a: Answer) -> Frame {
        let [reached_high, reached_low] = two_bytes(a.reached);
        let [trues_high, trues_low] = two_bytes(a.trues);
        Frame {
            bytes: [
                5,
                a.verdict,
                reached_high,
                reached_low,
                trues_high,
                trues_low,
                0,
                0,
            ],
            count: 6,
        }
    }
}

// The refusal's frame.
impl From<Refusal> for Frame {
    ghost from_gives = { λ r f.
        (bytes_of f ≡ refusal_frame (refusal (number_of r.reason) r.line)) × (f.count ≡ 4) };

    fn from(r: Refusal) -> Frame {
        let [high, low] = two_bytes(r.line);
        Frame {
            bytes: [6, u8::from(r.reason), high, low, 0, 0, 0, 0],
            count: 4,
        }
    }
}

// A number in two bytes, the high one first.
fn two_bytes(x: usize) -> [u8; 2]
    ensures { result ≡ two_bytes x }
{
    let [.., high, low] = x.to_be_bytes();
    [high, low]
}

// Writes what the checking program prints for a text and gives the number of bytes written.
// A buffer under 7,693 bytes, which is what the longest answer takes, gives 0 and stays.
pub fn print_answer(text: &[u8], out: &mut [u8]) -> usize
    ensures { Written text.now out.old result out.new }
{
    if out.len() < 7693 {
        return 0;
    }
    let mut table = [0u32; 512];
    let examined = engine::examine(text, &mut table);
    put_answer(out, &table, examined)
}

// Writes the lines of a list that is solved and gives the number of bytes written. Kept beside
// `print_answer`: the words that are shown are the lent ones here, and there those of a table made for it.
pub fn print_solved(text: &[u8], list: &[u32], out: &mut [u8]) -> usize
    ensures { SolvedWritten text.now list.now out.old result
        out.new }
{
    let room = out.len();
    if room < 7693 {
        return 0;
    }
    put_answer(out, list, engine::solve(text, list))
}

// Writes a whole answer from the buffer's first byte on, and gives the number of bytes written.
fn put_answer(out: &mut [u8], words: &[u32], examined: Result<Examined, Refused>) -> usize
    requires { PrintableResult words.now examined × (7693 ≤ length out.old) }
    ensures { Puts out.old 0 (result_text words.now examined) result out.new }
{
    match examined {
        Ok(e) => {
            let reached = &words[..e.answer.reached];
            let at = put_instances(out, reached, e.answer.truth, e.model.equations);
            Frame::from(e.answer).put(out, at)
        }
        Err(r) => Frame::from(r.refusal).put(out, 0),
    }
}

// Writes a line for each word, and gives the number of bytes written.
fn put_instances(out: &mut [u8], words: &[u32], truth: [u64; 8], equations: [Equation; 8]) -> usize
    requires { Readable equations words.now ×
        ((length words.now ≤ 512) × (15 * length words.now ≤ length out.old)) }
    ensures { Puts out.old 0 (word_lines equations truth 0 words.now) result
        out.new }
{
    let mut at = 0;
    for (j, word) in words.iter().enumerate() {
        at = Frame::of_word(equations, *word, truth::has(truth, j)).put(out, at);
    }
    at
}
