// Checks, translates or edits many texts, or finds or solves their lists of instances, and prints what comes
// of each, and an empty line after it. On standard input each text comes after its head, eight hexadecimal
// digits and 0a: the first two are 00 for a model, which is checked, 01 for a process and a formula, which
// are translated, 02 for a model of which a right side is replaced, 03 for one whose instances are found, and
// 04 for one whose list of them is solved; the last four are the length. Behind the head of 02 come three
// decimal digits for the equation, and the new right side and 0a; the third and fourth digit of the head say
// how many bytes it has. Behind those of 03 and 04 comes what the crate `sampling` reads.
// README.md beside this folder says what the texts are and how the expected output was made.
#![tactic(auto)]

use std::io;
use std::io::Input;

// As many bytes as the longest text of a model takes.
const MODEL_SIZE: usize = 4117;

// As many bytes as the longest text of a model has.
const TEXT_SIZE: usize = 32768;

// As many bytes as the words may have.
const WORDS_SIZE: usize = 514;

// As many bytes as a head can say that a text has.
const LARGEST_SIZE: usize = 65536;

// What is to be done with a text.
#[derive(Clone, Copy)]
enum Kind {
    Check,
    Translate,
    Replace,
    Find,
    Solve,
}

// A text of any other kind is checked.
impl From<u8> for Kind {
    fn from(byte: u8) -> Kind {
        match byte {
            1 => Kind::Translate,
            2 => Kind::Replace,
            3 => Kind::Find,
            4 => Kind::Solve,
            _ => Kind::Check,
        }
    }
}

// What a head says of the text behind it; `count` is how many bytes a new right side has.
#[derive(Clone, Copy)]
struct Head {
    kind: Kind,
    count: u8,
    size: u16,
}

// Reads a head; none where there is no text left.
fn read_head(rt: &impl Input) -> io::Result<Option<Head>> {
    let mut line = [0; 9];
    if streams::read_full(rt, &mut line)? < line.len() {
        return Ok(None);
    }
    Ok(Some(Head {
        kind: Kind::from(digits::byte(&line, 0)),
        count: digits::byte(&line, 1),
        size: u16::from_be_bytes([digits::byte(&line, 2), digits::byte(&line, 3)]),
    }))
}

// Reads a text as long as the buffer and prints its answer.
fn answer(rt: &(impl Input + Print), buffer: &mut [u8]) -> io::Result<()> {
    let n = streams::read_full(rt, buffer)?;
    let mut out = sampling::answer_buffer();
    let written = checker::devashtor_check(&buffer[..n], &mut out);
    rt.write_all(&out[..written])?;
    rt.write_all(b"\n")
}

// Reads a text as long as the buffer and prints its translation.
fn translation(rt: &(impl Input + Print), buffer: &mut [u8]) -> io::Result<()> {
    let n = streams::read_full(rt, buffer)?;
    let mut out = [0u8; MODEL_SIZE];
    let written = translator::print_translation(&buffer[..n], &mut out);
    rt.write_all(&out[..written])?;
    rt.write_all(b"\n")
}

// Prints a text with a right side replaced, as the words say: three digits for the equation, the right side
// and 0a.
fn print_edited(rt: &impl Print, text: &[u8], words: &[u8]) -> io::Result<()> {
    let [first, second, third, side @ .., _] = words else {
        return Ok(());
    };
    let mut out = [0u8; TEXT_SIZE];
    let written = replacer::print_replacement(text, &[*first, *second, *third], side, &mut out);
    rt.write_all(&out[..written])?;
    rt.write_all(b"\n")
}

// Reads the words and a text, each as long as its buffer, and edits.
fn replacement(rt: &(impl Input + Print), buffer: &mut [u8], words: &mut [u8]) -> io::Result<()> {
    let got = streams::read_full(rt, words)?;
    let n = streams::read_full(rt, buffer)?;
    print_edited(rt, &buffer[..n], &words[..got])
}

// Reads the words with a right side of `count` bytes, and edits.
fn replacement_of(rt: &(impl Input + Print), buffer: &mut [u8], count: u8) -> io::Result<()> {
    let mut words = [0u8; WORDS_SIZE];
    let size = 4 + 2 * usize::from(count);
    replacement(rt, buffer, &mut words[..size])
}

// Reads a text as long as its head says, and does what that says with it.
fn answer_next(rt: &(impl Input + Print), head: Head) -> io::Result<()> {
    let mut largest = [0u8; LARGEST_SIZE];
    let buffer = &mut largest[..usize::from(head.size)];
    match head.kind {
        Kind::Check => answer(rt, buffer),
        Kind::Translate => translation(rt, buffer),
        Kind::Replace => replacement_of(rt, buffer, head.count),
        Kind::Find => sampling::find(rt, buffer),
        Kind::Solve => sampling::solve(rt, buffer),
    }
}

fn main(rt: HostRuntime) -> io::Result<()> {
    for _ in 0..100000 {
        let Some(head) = read_head(&rt)? else {
            return Ok(());
        };
        answer_next(&rt, head)?;
    }
    Ok(())
}
