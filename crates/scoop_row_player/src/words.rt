//! Words of rows: blocks, entries, numbers. Those of messages are in `scoop_demo`, as `scoop frame` reads and prints them.

use crate::bad::Bad;
use arrayvec::ArrayVec;
use scoop_lines::{count_words, decimal, decimal_u16, decimal_u32, next_word, one_word};
use scoop_message::limits::{MAX_ARGS, MAX_ENTRIES};
use scoop_message::{Args, Block, ClientId, Entries, Entry, Request};
use std::io;
use std::io::Write;

/// The first word of a line and what follows it. `Bad::Words` if there is none.
pub fn first(line: &[u8]) -> Result<(&[u8], &[u8]), Bad> {
    next_word(line).ok_or(Bad::Words)
}

/// The one word of a line. `Bad::Words` if there is none, or another one after it.
pub fn last(line: &[u8]) -> Result<&[u8], Bad> {
    one_word(line).ok_or(Bad::Words)
}

/// The number of 32 bits that a word writes in decimal digits.
pub fn number(word: &[u8]) -> Result<u32, Bad> {
    decimal_u32(word).ok_or(Bad::Number)
}

// The part before the first byte of this value, and the part after it if there is one.
fn parted(word: &[u8], byte: u8) -> (&[u8], Option<&[u8]>) {
    match word.iter().position(|at| *at == byte) {
        Some(place) => (&word[..place], Some(&word[place + 1..])),
        None => (word, None),
    }
}

/// A block as `7.1.2`: client, incarnation and number.
pub fn block(word: &[u8]) -> Result<Block, Bad> {
    let (client, Some(rest)) = parted(word, b'.') else {
        return Err(Bad::Number);
    };
    let (inc, Some(num)) = parted(rest, b'.') else {
        return Err(Bad::Number);
    };
    Ok(Block {
        client: ClientId(number(client)?),
        inc: number(inc)?,
        num: number(num)?,
    })
}

/// An entry as `call:OP:ARG..`, `query:OP:ARG..` or `end`.
pub fn entry(word: &[u8]) -> Result<Entry, Bad> {
    match parted(word, b':') {
        (b"call", Some(rest)) => Ok(Entry::Call(request(rest)?)),
        (b"query", Some(rest)) => Ok(Entry::Query(request(rest)?)),
        (b"end", None) => Ok(Entry::End),
        _ => Err(Bad::Words),
    }
}

fn request(word: &[u8]) -> Result<Request, Bad> {
    let (op, rest) = parted(word, b':');
    let op = decimal_u16(op).ok_or(Bad::Number)?;
    Ok(Request {
        op,
        args: arguments(rest)?,
    })
}

fn arguments(mut rest: Option<&[u8]>) -> Result<Args, Bad> {
    let mut numbers = ArrayVec::<u64, MAX_ARGS>::new();
    for _ in 0..=MAX_ARGS {
        let Some(text) = rest else {
            break;
        };
        let (number, behind) = parted(text, b':');
        let number = decimal(number).ok_or(Bad::Number)?;
        numbers.try_push(number).map_err(|_| Bad::Words)?;
        rest = behind;
    }
    Args::of(numbers.as_slice()).map_err(|_| Bad::Words)
}

/// The entries of a line, up to four.
pub fn entries(line: &[u8]) -> Result<Entries, Bad> {
    let count = count_words(line);
    if count > MAX_ENTRIES {
        return Err(Bad::Words);
    }
    let mut cells = [Entry::End; MAX_ENTRIES];
    let mut rest = line;
    for i in 0..count {
        let (word, behind) = first(rest)?;
        cells[i] = entry(word)?;
        rest = behind;
    }
    Entries::of(&cells[..count]).map_err(|_| Bad::Words)
}

/// Writes an entry in the words that [`entry`] reads.
pub fn put_entry<W: Write>(entry: &Entry, out: &mut W) -> io::Result<()> {
    match entry {
        Entry::Call(request) => put_request("call", request, out),
        Entry::Query(request) => put_request("query", request, out),
        Entry::End => out.write_all(b"end"),
    }
}

fn put_request<W: Write>(kind: &str, request: &Request, out: &mut W) -> io::Result<()> {
    write!(out, "{kind}:{}", request.op)?;
    for argument in request.args.as_slice() {
        write!(out, ":{argument}")?;
    }
    Ok(())
}
