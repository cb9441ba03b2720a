// The command `replace E SIDE`: its words, and what it prints.
ghost use Rattle.std.specs.Prelude.{◌≡◌, length};
ghost use Rattle.replacer.specs.Printed.{is_number, is_bytes, PrintsReplacement};
ghost use Rattle.replacer.specs.Contract.{named_by, Decodes};

use crate::replace;

// Whether a word is a number in decimal.
fn is_number(word: &[u8]) -> bool
    ensures { result ≡ is_number word.now }
{
    !word.is_empty() && word.iter().all(|c| c.is_ascii_digit())
}

// Whether a word is bytes in hexadecimal, two digits each.
fn is_bytes(word: &[u8]) -> bool
    ensures { result ≡ is_bytes word.now }
{
    frames::all_digits(word) && word.len() % 2 == 0
}

// The number that decimal digits say, or 8 where it is greater: no equation has such a number.
// Kept as a number: the definition `named_by` says 8, and `named_same` that any number over 7 does the same.
fn named_by(word: &[u8]) -> usize
    ensures { result ≡ named_by word.now }
{
    let mut n: usize = 0;
    for c in word {
        let digit = usize::from(c.saturating_sub(b'0'));
        n = (10 * n + digit).min(8);
    }
    n
}

// Puts the bytes that a word says into a list, as many as it holds, and gives their number.
// By index: `digits::byte` asks for it, and an iterator over the places would have to count it beside them.
fn decode(word: &[u8], list: &mut [u8]) -> usize
    ensures { Decodes word.now (length list.old) result list.new }
{
    let count = (word.len() / 2).min(list.len());
    for i in 0..count {
        list[i] = digits::byte(word, i);
    }
    count
}

// Writes what the command prints for a text and its two words, and gives the number of bytes written: the
// resulting text, or the line of the refusal; nothing where the words are no number and no bytes. A buffer
// under 32,768 bytes, which is what the longest text takes, gives 0 and stays.
pub fn print_replacement(text: &[u8], number: &[u8], side: &[u8], out: &mut [u8]) -> usize
    ensures { PrintsReplacement text.now number.now side.now
        out.old result out.new }
{
    if out.len() < 32768 {
        return 0;
    }
    if !is_number(number) || !is_bytes(side) {
        return 0;
    }
    // One byte more than a right side may have for its text not to be too long.
    // A list with its count beside it: memory is fixed, and `decode` fills as much as the word says.
    let mut list = [0; 16385];
    let count = decode(side, &mut list);
    let reply = replace(text, named_by(number), &list[..count], out);
    writing::show(reply, out)
}
