// The part of the program `samples` that finds and solves lists of instances. On standard input a line of
// four hexadecimal digits says how many words are lent to find in, or how many the list has; in the second
// case a line of eight digits follows for each word; then the text. What comes of it is printed, and an empty
// line.
#![tactic(auto)]

ghost use Rattle.std.specs.Prelude.{◌≡◌, ◌≤◌, length, IfOk};

use std::io;
use std::io::Input;
use streams::read_full;

// As many bytes as the longest answer takes.
pub fn answer_buffer() -> [u8; 7693]
    ensures { 7693 ≡ length result }
{
    [0; 7693]
}

// As many words as may be lent, two more than a list has.
const WORDS_LENT: usize = 514;

// What a word that is lent holds before.
const LENT: u32 = 0xffffffff;

// Reads a line of four digits that says how many words there are; where it says more than may be lent, as
// many as may.
fn read_count(rt: &impl Input) -> io::Result<usize>
    ensures { IfOk result (λ n. n ≤ 514) }
{
    let mut line = [0; 5];
    read_full(rt, &mut line)?;
    let count = u16::from_be_bytes([digits::byte(&line, 0), digits::byte(&line, 1)]);
    Ok(usize::from(count).min(WORDS_LENT))
}

// Prints a number as a line of N characters, small digits and 0a: the last digits where it has more.
fn print_line<const N: usize>(rt: &impl Print, number: u64) -> io::Result<()>
    requires { N ≤ 17 }
{
    let mut line = [b'\n'; N];
    let mut left = number;
    for place in line.iter_mut().rev().skip(1) {
        *place = digits::digit((left % 16) as u8);
        left /= 16;
    }
    rt.write_all(&line)
}

fn print_word(rt: &impl Print, word: u32) -> io::Result<()> {
    print_line::<9>(rt, u64::from(word))
}

fn print_words(rt: &impl Print, words: &[u32]) -> io::Result<()> {
    for word in words {
        print_word(rt, *word)?;
    }
    Ok(())
}

// Finds the reached instances of a text, and prints the reply and then the table.
fn print_found(rt: &impl Print, text: &[u8], table: &mut [u32]) -> io::Result<()> {
    print_line::<17>(rt, checker::devashtor_find(text, table))?;
    print_words(rt, table)?;
    rt.write_all(b"\n")
}

// Reads how many words are lent and a text as long as the buffer, and finds.
pub fn find(rt: &(impl Input + Print), buffer: &mut [u8]) -> io::Result<()> {
    let mut table = [LENT; WORDS_LENT];
    let count = read_count(rt)?;
    let n = read_full(rt, buffer)?;
    print_found(rt, &buffer[..n], &mut table[..count])
}

// Reads a line with a word: eight digits, the high byte first.
fn read_word(rt: &impl Input) -> io::Result<u32> {
    let mut line = [0; 9];
    read_full(rt, &mut line)?;
    Ok(u32::from_be_bytes([
        digits::byte(&line, 0),
        digits::byte(&line, 1),
        digits::byte(&line, 2),
        digits::byte(&line, 3),
    ]))
}

// Reads as many words as the list has.
fn read_list(rt: &impl Input, list: &mut [u32]) -> io::Result<()> {
    for word in list {
        *word = read_word(rt)?;
    }
    Ok(())
}

// Solves the list of a text and prints the answer.
fn print_solved(rt: &impl Print, text: &[u8], list: &[u32]) -> io::Result<()> {
    let mut out = answer_buffer();
    let written = checker::devashtor_solve(text, list, &mut out);
    rt.write_all(&out[..written])?;
    rt.write_all(b"\n")
}

// Reads a list and a text, each as long as its buffer, and solves.
fn solving(rt: &(impl Input + Print), buffer: &mut [u8], list: &mut [u32]) -> io::Result<()> {
    read_list(rt, list)?;
    let n = read_full(rt, buffer)?;
    print_solved(rt, &buffer[..n], list)
}

// Reads how many words the list has, the list, and a text as long as the buffer, and solves.
pub fn solve(rt: &(impl Input + Print), buffer: &mut [u8]) -> io::Result<()> {
    let mut list = [LENT; WORDS_LENT];
    let count = read_count(rt)?;
    solving(rt, buffer, &mut list[..count])
}
