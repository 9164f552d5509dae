//! The incarnation that a client's store was seen with, in a line of the text beside it.

ghost use Rattle.std.specs.Prelude.{◌≡◌, ◌++◌, find, IfOk, OnOk, string_bytes, filter, map, codes};
ghost use Rattle.std.specs.Option.{option_map};
ghost use Rattle.std.specs.Io.KnownBytes.{Appends};
ghost use Rattle.std.specs.Str.Lines.{lines};
ghost use Rattle.scoop_owner.specs.Incarnation.{after_key, incarnation_of, says_incarnation, last_incarnation, is_other_line, text_with_incarnation, incarnation_line};
ghost use Rattle.scoop_owner.specs.Newest.{lines_text};

use crate::newest::print_lines;
use scoop_lines::decimal_u32;
use scoop_message::OutOfMemory;
use std::alloc::Global;
use std::io;
use std::io::Write;

/// The incarnation that the text beside a client's store says, `None` if it says none.
pub fn last_incarnation(text: &str) -> Option<u32>
    ensures { result ≡ last_incarnation text.now }
{
    match incarnation_line(text) {
        Some(line) => incarnation_of(line),
        None => None,
    }
}

// The first line that says an incarnation.
fn incarnation_line(text: &str) -> Option<&str>
    ensures { option_map (λ line. line.now) result ≡ find says_incarnation (lines text.now) }
{
    text.lines().find(|line| says_incarnation(*line))
}

fn incarnation_of(line: &str) -> Option<u32>
    ensures { result ≡ incarnation_of line.now }
{
    match after_key(line.as_bytes(), b"incarnation = ") {
        Some(digits) => decimal_u32(digits),
        None => None,
    }
}

// The text after this one at the beginning of a line.
fn after_key<'a>(line: &'a [u8], key: &[u8]) -> Option<&'a [u8]>
    ensures { option_map (λ rest. rest.now) result ≡ after_key line.now key.now }
{
    line.strip_prefix(key)
}

fn says_incarnation(line: &str) -> bool
    ensures { result ≡ says_incarnation line.now }
{
    incarnation_of(line).is_some()
}

/// The text beside a client's store, with a line for this incarnation in place of one for an older one.
///
/// `OutOfMemory`: an allocation was refused.
pub fn text_with_incarnation(alloc: Global, text: &str, inc: u32) -> Result<String, OutOfMemory>
    ensures { IfOk result (λ new. string_bytes new ≡ text_with_incarnation text.now inc) }
{
    let others = other_lines(alloc, text)?;
    let mut bytes = Vec::new(alloc);
    if print_text(others.as_slice(), inc, &mut bytes).is_err() {
        return Err(OutOfMemory);
    }
    match String::from_utf8(bytes) {
        Ok(text) => Ok(text),
        Err(_) => Err(OutOfMemory),
    }
}

// The lines that say no incarnation.
fn other_lines(alloc: Global, text: &str) -> Result<Vec<&str>, OutOfMemory>
    ensures { IfOk result (λ others. map (λ line. line.now) others.items ≡ filter is_other_line (lines text.now)) }
{
    Ok(
        text.lines()
            .filter(|line| !says_incarnation(*line))
            .collect(alloc)?,
    )
}

#[tactic(auto, unfolding(crate::specs::Incarnation::incarnation_line))]
fn print_text<W: Write>(others: &[&str], inc: u32, writer: &mut W) -> io::Result<()>
    ensures { OnOk result (Appends (W.contents writer.old) (W.contents writer.new) (lines_text (map (λ line. line.now) others.now) ++ incarnation_line inc ++ codes "\n")) }
{
    print_lines(others, writer)?;
    writeln!(writer, "incarnation = {inc}")
}
