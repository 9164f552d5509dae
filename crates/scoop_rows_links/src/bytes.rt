//! Words of rows: numbers, bytes in hex digits, and answers.

use hex::FromHex;
use scoop_lines::{decimal, next_word};
use scoop_row_player::Bad;
use std::alloc::Global;
use std::fmt::Display;
use std::io::Write;

/// Writes a value.
pub(crate) fn tells<T: Display + Drop>(value: T, answer: &mut Vec<u8>) -> Result<(), Bad> {
    write!(answer, "{value}")?;
    Ok(())
}

/// Writes `ok`, or the error.
pub(crate) fn told<E: Display + Drop>(
    done: Result<(), E>,
    answer: &mut Vec<u8>,
) -> Result<(), Bad> {
    match done {
        Ok(()) => tells("ok", answer),
        Err(error) => tells(error, answer),
    }
}

/// The words of a line.
pub(crate) fn words_in(alloc: Global, line: &[u8]) -> Result<Vec<&[u8]>, Bad> {
    let mut words = Vec::new(alloc);
    let mut rest = line;
    for _ in 0..line.len() {
        let Some((word, behind)) = next_word(rest) else {
            break;
        };
        words.push(word)?;
        rest = behind;
    }
    Ok(words)
}

/// The numbers that the words of a line write.
pub(crate) fn numbers(alloc: Global, line: &[u8]) -> Result<Vec<u64>, Bad> {
    let mut numbers = Vec::new(alloc);
    for word in words_in(alloc, line)?.as_slice() {
        numbers.push(decimal(*word).ok_or(Bad::Number)?)?;
    }
    Ok(numbers)
}

/// The bytes that the words of a line write in hex digits.
pub(crate) fn read_bytes(alloc: Global, line: &[u8]) -> Result<Vec<u8>, Bad> {
    let mut bytes = Vec::new(alloc);
    for word in words_in(alloc, line)?.as_slice() {
        for pair in word.chunks(2) {
            let [byte] = <[u8; 1] as FromHex>::from_hex(pair).map_err(|_| Bad::Number)?;
            bytes.push(byte)?;
        }
    }
    Ok(bytes)
}

/// Writes bytes in hex digits.
pub(crate) fn put_bytes(bytes: &[u8], answer: &mut Vec<u8>) -> Result<(), Bad> {
    for byte in bytes {
        write!(answer, "{byte:02x}")?;
    }
    Ok(())
}
