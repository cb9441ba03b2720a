// The public operations for the image builder, in C: each calls the one of the same name in the crate
// `checker` and promises what it promises. `rt lib` makes the archive of them.
#![tactic(auto)]

ghost use Rattle.printing.specs.Promise.{Written, SolvedWritten};
ghost use Rattle.checker.specs.Promises.{FindsForC, TranslatesForC, ReplacesForC};

// Writes what the checking program prints for a text into the lent buffer and gives the number of bytes
// written.
// A buffer under 7,693 bytes, which is what the longest answer takes, gives 0 and stays.
#[unsafe(no_mangle)]
pub extern "C" fn devashtor_check(text: &[u8], out: &mut [u8]) -> usize
    ensures { Written text.now out.old result out.new }
{
    checker::devashtor_check(text, out)
}

// Writes the reached instances of a text into the lent table and gives how many they are, or, on a refusal,
// 2^63 + number * 2^32 + line.
#[unsafe(no_mangle)]
pub extern "C" fn devashtor_find(text: &[u8], table: &mut [u32]) -> u64
    ensures { FindsForC text.now table.old result table.new }
{
    checker::devashtor_find(text, table)
}

// Writes what the checking program prints for a text into the lent buffer, where the lent list is that of its
// reached instances, else a refusal's line; gives the number of bytes written.
// A buffer under 7,693 bytes gives 0 and stays.
#[unsafe(no_mangle)]
pub extern "C" fn devashtor_solve(text: &[u8], list: &[u32], out: &mut [u8]) -> usize
    ensures { SolvedWritten text.now list.now out.old result
        out.new }
{
    checker::devashtor_solve(text, list, out)
}

// Writes the text of the model of a process and a formula into the lent buffer and gives how many bytes it
// has, or, on a refusal, 2^63 + number * 2^32 + line; then nothing is written.
#[unsafe(no_mangle)]
pub extern "C" fn devashtor_translate(text: &[u8], out: &mut [u8]) -> u64
    ensures { TranslatesForC text.now out.old result out.new }
{
    checker::devashtor_translate(text, out)
}

// Writes a model's text with the right side of an equation replaced by the bytes of a new one into the lent
// buffer and gives how many bytes it has, or, on a refusal, 2^63 + number * 2^32 + line; then nothing is
// written.
#[unsafe(no_mangle)]
pub extern "C" fn devashtor_replace(
    text: &[u8],
    equation: usize,
    side: &[u8],
    out: &mut [u8],
) -> u64
    ensures { ReplacesForC text.now equation side.now out.old result
        out.new }
{
    checker::devashtor_replace(text, equation, side, out)
}
