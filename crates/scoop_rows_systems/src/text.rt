//! Texts and numbers in rows.

use scoop_lines::{decimal, next_word};
use scoop_row_player::Bad;
use std::alloc::Global;
use std::fmt::Display;
use std::io::Write;

/// A text of a row, in which `\n` stands for a newline and `\r` for a carriage return. The space that
/// separates it from the word before it is left out.
pub fn read_text(alloc: Global, line: &[u8]) -> Result<Vec<u8>, Bad> {
    let mut text = Vec::new(alloc);
    let mut rest = line.strip_prefix(b" ").unwrap_or(line);
    for _ in 0..line.len() {
        let (byte, behind) = match rest {
            [] => break,
            [b'\\', b'n', behind @ ..] => (b'\n', behind),
            [b'\\', b'r', behind @ ..] => (b'\r', behind),
            [byte, behind @ ..] => (*byte, behind),
        };
        text.push(byte)?;
        rest = behind;
    }
    Ok(text)
}

/// The numbers of a line.
pub fn numbers(alloc: Global, line: &[u8]) -> Result<Vec<u64>, Bad> {
    let mut numbers = Vec::new(alloc);
    let mut rest = line;
    for _ in 0..line.len() {
        let Some((word, behind)) = next_word(rest) else {
            break;
        };
        numbers.push(decimal(word).ok_or(Bad::Number)?)?;
        rest = behind;
    }
    Ok(numbers)
}

/// Adds an answer.
pub fn tells<T: Display + Drop>(value: T, answer: &mut Vec<u8>) -> Result<(), Bad> {
    write!(answer, "{value}")?;
    Ok(())
}

/// Adds `ok`, or the error.
pub fn told<E: Display + Drop>(done: Result<(), E>, answer: &mut Vec<u8>) -> Result<(), Bad> {
    match done {
        Ok(()) => tells("ok", answer),
        Err(error) => tells(error, answer),
    }
}

/// Leaves out the newline at the end.
pub fn without_last(answer: &mut Vec<u8>) {
    if answer.as_slice().ends_with(b"\n") {
        let _newline = answer.pop();
    }
}

/// Adds whether a text has the words that follow in a row.
pub fn has(text: &[u8], words: &[u8], answer: &mut Vec<u8>) -> Result<(), Bad> {
    let wanted = read_text(*answer.allocator(), words)?;
    match (str::from_utf8(text), str::from_utf8(&wanted)) {
        (Ok(text), Ok(wanted)) if !wanted.is_empty() => tells(text.contains(wanted), answer),
        _ => Err(Bad::Words),
    }
}
