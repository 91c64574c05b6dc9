// The tabulate program: reads a JSON text from standard input, with the key book in the file that its argument names, and writes the text's
// value table; a refusal is a line on standard error.
#![tactic(auto)]

use std::env::{Env, FillError};
use std::fs::File;
use std::io;
use std::io::Read;
use text_reader::call::read_text;
use value_table::{answer_of, record};

// One byte more than a text or a book may have, so that longer input is seen to be too long.
const INPUT_LENGTH: usize = record::MAX_LENGTH + 1;

fn print_refusal(rt: &HostRuntime, number: u64, place: u64) -> io::Result<()> {
    eprintln!(rt; "refused {number} {place}")
}

fn write_table(rt: &HostRuntime, text: &[u8], book: &[u8]) -> io::Result<()> {
    let mut table = [0u8; record::MAX_LENGTH];
    let answer = answer_of(read_text(text, book, &mut table));
    if answer.number != 0 {
        return print_refusal(rt, answer.number, answer.place);
    }
    let n = record::SIZE * (answer.count as usize);
    rt.write_all(&table[..n])
}

// Whether nothing can be read, as from a folder; at the end of a file this is false.
fn is_unreadable(mut file: &File) -> bool {
    let mut byte = [0u8; 1];
    file.read(&mut byte).is_err()
}

// The system's words for an error, without the number that may stand behind them.
fn words(text: &str) -> &str {
    match text.split_once(" (os error ") {
        Some((words, _)) => words,
        None => text,
    }
}

fn print_failure(rt: &HostRuntime, what: &str, error: io::Error) -> io::Result<()> {
    let text = format!(in rt.alloc(); "{error}")?;
    let words = words(&text);
    eprintln!(rt; "{what}: {words}")
}

fn tabulate(rt: &HostRuntime, path: &str) -> io::Result<()> {
    let file = match File::open(rt, path) {
        Ok(file) => file,
        Err(error) => return print_failure(rt, path, error),
    };
    let mut book = [0u8; INPUT_LENGTH];
    match input::read_full(&file, &mut book) {
        Ok(b) => {
            let mut text = [0u8; INPUT_LENGTH];
            let t = input::read_full(rt.stdin(), &mut text)?;
            write_table(rt, &text[..t], &book[..b])
        }
        Err(error) if is_unreadable(&file) => print_failure(rt, path, error),
        Err(error) => Err(error),
    }
}

fn main(rt: HostRuntime) -> io::Result<()> {
    let mut path = [0u8; 4096];
    let length = match rt.arg(1, &mut path) {
        Ok(length) => length,
        Err(FillError::NotPresent) => return eprintln!(rt; "key book: Invalid argument"),
        Err(FillError::TooLong) => return eprintln!(rt; "key book: File name too long"),
    };
    match std::str::from_utf8(&path[..length]) {
        Ok(path) => tabulate(&rt, path),
        Err(_) => eprintln!(rt; "key book: The path is not UTF-8"),
    }
}
