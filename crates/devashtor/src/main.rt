// The program: a text on standard input, what the command prints for it on standard output. With no command,
// or with `check`, the text is a model, which is checked; with `translate` a process and a formula; with
// `replace E SIDE` a model, of which one right side is replaced. With any other word nothing is printed.
#![tactic(auto)]

use std::env::FillError;
use std::io;
use std::rt::Env;

// One byte more than a text may have: a longer input is refused as this one is.
const TEXT_SIZE: usize = 32769;

// As many bytes as the longest answer takes.
const ANSWER_SIZE: usize = 7693;

// As many bytes as the longest text of a model takes.
const MODEL_SIZE: usize = 4117;

// As many bytes as a word of a command line may have on Linux.
const WORD_SIZE: usize = 131072;

fn main(rt: HostRuntime) -> io::Result<()> {
    let mut text = [0u8; TEXT_SIZE];
    let read = streams::read_full(&rt, &mut text)?;
    let mut name = [0u8; 16];
    match rt.arg(1, &mut name) {
        Ok(size) => run(&rt, &name[..size], &text[..read]),
        Err(FillError::NotPresent) => check(&rt, &text[..read]),
        Err(FillError::TooLong) => Ok(()),
    }
}

// Does what a command says; nothing where a word is no command.
fn run(rt: &(impl Env + Print), command: &[u8], text: &[u8]) -> io::Result<()> {
    match command {
        b"translate" => translate(rt, text),
        b"replace" => replace(rt, text),
        b"check" => check(rt, text),
        _ => Ok(()),
    }
}

// Prints the lines of a model's answer.
fn check(rt: &impl Print, text: &[u8]) -> io::Result<()> {
    let mut out = [0u8; ANSWER_SIZE];
    let written = checker::devashtor_check(text, &mut out);
    rt.write_all(&out[..written])
}

// Prints the text of the model of a process and a formula, or the refusal.
fn translate(rt: &impl Print, text: &[u8]) -> io::Result<()> {
    let mut out = [0u8; MODEL_SIZE];
    let written = translator::print_translation(text, &mut out);
    rt.write_all(&out[..written])
}

// Prints the model with the right side of the equation that the second word names replaced by the bytes that
// the third one says, or the refusal. Nothing where there are other words, or one that no buffer holds.
fn replace(rt: &(impl Env + Print), text: &[u8]) -> io::Result<()> {
    if has_word(rt, 4) {
        return Ok(());
    }
    let mut number = [0u8; WORD_SIZE];
    let Ok(digits) = rt.arg(2, &mut number) else {
        return Ok(());
    };
    let mut side = [0u8; WORD_SIZE];
    let Ok(size) = rt.arg(3, &mut side) else {
        return Ok(());
    };
    let mut out = [0u8; TEXT_SIZE];
    let written = replacer::print_replacement(text, &number[..digits], &side[..size], &mut out);
    rt.write_all(&out[..written])
}

// Whether the command line has a word of this number; the program's name is word 0.
fn has_word(rt: &impl Env, number: usize) -> bool {
    let mut start = [0u8; 1];
    !matches!(rt.arg(number, &mut start), Err(FillError::NotPresent))
}
