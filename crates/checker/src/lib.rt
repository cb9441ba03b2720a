// The public operations, and those for C: each a thin function over what the crates below do. The crate
// `checker_c` exports those for C.
#![tactic(auto)]

ghost use Rattle.std.specs.Prelude.{◌≡◌, ◌≤◌};
ghost use Rattle.printing.specs.Promise.{Written, SolvedWritten};
ghost use Rattle.checker.specs.Promises.{reply_word, FindsForC, TranslatesForC, ReplacesForC};

pub use answers::Answer;
pub use lending::{FindAnswer, ReadAnswer, Record, check, find, read, solve};
pub use replacer::replace;
pub use translator::translate;
pub use writing::Writing;

// For the image builder, in C: writes what the checking program prints for a text into the lent buffer and
// gives the number of bytes written.
// A buffer under 7,693 bytes, which is what the longest answer takes, gives 0 and stays.
pub fn devashtor_check(text: &[u8], out: &mut [u8]) -> usize
    ensures { Written text.now out.old result out.new }
{
    printing::print_answer(text, out)
}

// For the image builder, in C: writes the reached instances of a text into the lent table and gives how many
// they are, or, on a refusal, 2^63 + number * 2^32 + line.
pub fn devashtor_find(text: &[u8], table: &mut [u32]) -> u64
    ensures { FindsForC text.now table.old result table.new }
{
    match engine::find(text, table) {
        Ok(e) => reply_word(Writing {
            number: 0,
            line: 0,
            length: e.answer.reached,
        }),
        Err(r) => reply_word(Writing::from(r.refusal)),
    }
}

// For the image builder, in C: writes what the checking program prints for a text into the lent buffer, where
// the lent list is that of its reached instances, else a refusal's line; gives the number of bytes written.
// A buffer under 7,693 bytes gives 0 and stays.
pub fn devashtor_solve(text: &[u8], list: &[u32], out: &mut [u8]) -> usize
    ensures { SolvedWritten text.now list.now out.old result
        out.new }
{
    printing::print_solved(text, list, out)
}

// For the image builder, in C: writes the text of the model of a process and a formula into the lent buffer
// and gives how many bytes it has, or, on a refusal, 2^63 + number * 2^32 + line; then nothing is written.
pub fn devashtor_translate(text: &[u8], out: &mut [u8]) -> u64
    ensures { TranslatesForC text.now out.old result out.new }
{
    reply_word(translator::translate(text, out))
}

// For the image builder, in C: writes a model's text with the right side of an equation replaced by the bytes
// of a new one into the lent buffer and gives how many bytes it has, or, on a refusal, 2^63 + number * 2^32 +
// line; then nothing is written.
pub fn devashtor_replace(text: &[u8], equation: usize, side: &[u8], out: &mut [u8]) -> u64
    ensures { ReplacesForC text.now equation side.now out.old result
        out.new }
{
    reply_word(replacer::replace(text, equation, side, out))
}

// A function, and no conversion by `From`: it takes replies whose line is small.
fn reply_word(r: Writing) -> u64
    requires { r.line ≤ 32769 }
    ensures { result ≡ reply_word r }
{
    if r.number == 0 {
        return r.length as u64;
    }
    let number = u64::from(r.number);
    let line = r.line as u64;
    0x8000000000000000 + number * 0x100000000 + line
}
