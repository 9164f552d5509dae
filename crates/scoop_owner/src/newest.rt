//! The newest blocks that a store was seen with, in lines of the text beside it.

ghost use Rattle.std.specs.Prelude.{◌≡◌, find, MatchOption, OnOk, OnErr, IfOk, string_bytes, filter, map, position};
ghost use Rattle.std.specs.Prelude.{None, Some, ◌++◌};
ghost use Rattle.std.specs.Option.{option_map, option_copied};
ghost use Rattle.std.specs.List.{list_any};
ghost use Rattle.std.specs.Io.KnownBytes.{Appends};
ghost use Rattle.std.specs.Str.Lines.{lines};
ghost use Rattle.scoop_owner.specs.Newest.{newest_line, number_before, quoted_block, newest_of, is_before, is_beside, reaches, is_ahead, is_kept, noted, updated_text, has_beside, lines_text, newest_lines};

use scoop_lines::decimal_u32;
use scoop_message::{Block, ClientId, HandlerId, OutOfMemory};
use std::alloc::Global;
use std::io;
use std::io::Write;

/// The newest block of a client that a handler has seen, as the handler's mark has it. Block 0 stands for none yet.
#[derive(Clone, Copy, Debug, PartialEq, Eq)]
pub struct Newest {
    pub handler: HandlerId,
    pub block: Block,
}

/// The newest block that a line of the text beside a store names, `None` if it names none.
pub fn newest_of(line: &str) -> Option<Newest>
    ensures { result ≡ newest_of line.now }
{
    let rest = line.strip_prefix("newest.")?;
    let (handler, rest) = before_dot(rest)?;
    let (_, value) = rest.split_once('"')?;
    let block = quoted_block(value)?;
    Some(Newest {
        handler: HandlerId(handler),
        block,
    })
}

// The block whose name a text begins with, before a quote.
fn quoted_block(text: &str) -> Option<Block>
    ensures { result ≡ quoted_block text.now }
{
    let (client, rest) = before_dot(text)?;
    let (inc, rest) = before_dot(rest)?;
    let num = before_quote(rest)?;
    Some(Block {
        client: ClientId(client),
        inc,
        num,
    })
}

// The number before the first dot, and the text after it.
fn before_dot(text: &str) -> Option<(u32, &str)>
    ensures { MatchOption result (number_before 46 text.now ≡ None) (λ found. number_before 46 text.now ≡ Some (found.0, found.1.now)) }
{
    let (word, rest) = text.split_once('.')?;
    match decimal_u32(word.as_bytes()) {
        Some(number) => Some((number, rest)),
        None => None,
    }
}

// The number before the first quote.
fn before_quote(text: &str) -> Option<u32>
    ensures { result ≡ option_map (λ found. found.0) (number_before 34 text.now) }
{
    let (word, _) = text.split_once('"')?;
    decimal_u32(word.as_bytes())
}

/// The mark that stands for the same client at the same handler as this one.
pub fn mark_beside<'a>(marks: &'a [Newest], wanted: &Newest) -> Option<&'a Newest>
    ensures { option_copied result ≡ find (λ mark. is_beside mark wanted.now) marks.now }
{
    marks.iter().find(|mark| is_beside(*mark, wanted))
}

/// Puts the mark in place of the client's at that handler, or after the others. `OutOfMemory` if there is no room for one
/// more; then nothing has changed.
pub fn note_newest(marks: &mut Vec<Newest>, newest: Newest) -> Result<(), OutOfMemory>
    ensures ok { OnOk result (marks.new.items ≡ noted newest marks.old.items) }
    ensures err { OnErr result (marks.new.items ≡ marks.old.items) }
{
    match place_beside(marks.as_slice(), &newest) {
        Some(place) => {
            marks[place] = newest;
            Ok(())
        }
        None => Ok(marks.push(newest)?),
    }
}

fn place_beside(marks: &[Newest], wanted: &Newest) -> Option<usize>
    ensures { result ≡ position (λ mark. is_beside mark wanted.now) marks.now }
{
    marks.iter().position(|mark| is_beside(mark, wanted))
}

// Whether a block is older than another one of its client.
fn is_before(block: Block, other: Block) -> bool
    ensures { result ≡ is_before block other }
{
    block.inc < other.inc || block.inc == other.inc && block.num < other.num
}

fn is_beside(mark: &Newest, other: &Newest) -> bool
    ensures { result ≡ is_beside mark.now other.now }
{
    mark.handler == other.handler && mark.block.client == other.block.client
}

fn reaches(marks: &[Newest], wanted: &Newest) -> bool
    ensures { result ≡ reaches marks.now wanted.now }
{
    marks.iter().any(|mark| is_beside(mark, wanted) && !is_before(mark.block, wanted.block))
}

fn is_ahead(marks: &[Newest], line: &str) -> bool
    ensures { result ≡ is_ahead marks.now line.now }
{
    match newest_of(line) {
        Some(newest) => !reaches(marks, &newest),
        None => false,
    }
}

/// The first line of the text beside a store that names a block which these marks of the store don't reach: they lack the
/// client at that handler, or its newest block is older. Then the store is older than the text.
pub fn first_older<'a>(text: &'a str, marks: &[Newest]) -> Option<&'a str>
    ensures { option_map (λ line. line.now) result ≡ find (is_ahead marks.now) (lines text.now) }
{
    text.lines().find(|line| is_ahead(marks, *line))
}

fn is_kept(marks: &[Newest], line: &str) -> bool
    ensures { result ≡ is_kept marks.now line.now }
{
    match newest_of(line) {
        Some(newest) => !has_beside(marks, &newest),
        None => true,
    }
}

fn has_beside(marks: &[Newest], wanted: &Newest) -> bool
    ensures { result ≡ has_beside marks.now wanted.now }
{
    marks.iter().any(|mark| is_beside(mark, wanted))
}

/// The text beside a store, with a line for each of these marks in place of those for older ones.
///
/// `OutOfMemory`: an allocation was refused.
pub fn updated_text(alloc: Global, text: &str, marks: &[Newest]) -> Result<String, OutOfMemory>
    ensures { IfOk result (λ new. string_bytes new ≡ updated_text text.now marks.now) }
{
    let kept = kept_lines(alloc, text, marks)?;
    let mut bytes = Vec::new(alloc);
    if print_text(kept.as_slice(), marks, &mut bytes).is_err() {
        return Err(OutOfMemory);
    }
    match String::from_utf8(bytes) {
        Ok(text) => Ok(text),
        Err(_) => Err(OutOfMemory),
    }
}

// The lines of a text that these marks leave.
fn kept_lines<'a>(
    alloc: Global,
    text: &'a str,
    marks: &[Newest],
) -> Result<Vec<&'a str>, OutOfMemory>
    ensures { IfOk result (λ kept. map (λ line. line.now) kept.items ≡ filter (is_kept marks.now) (lines text.now)) }
{
    Ok(
        text.lines()
            .filter(|line| is_kept(marks, *line))
            .collect(alloc)?,
    )
}

fn print_text<W: Write>(kept: &[&str], marks: &[Newest], writer: &mut W) -> io::Result<()>
    ensures { OnOk result (Appends (W.contents writer.old) (W.contents writer.new) (lines_text (map (λ line. line.now) kept.now) ++ newest_lines marks.now)) }
{
    print_lines(kept, writer)?;
    print_marks(marks, writer)
}

/// Writes the lines, each with its end.
pub(crate) fn print_lines<W: Write>(lines: &[&str], writer: &mut W) -> io::Result<()>
    ensures { OnOk result (Appends (W.contents writer.old) (W.contents writer.new) (lines_text (map (λ line. line.now) lines.now))) }
{
    match lines {
        [] => Ok(()),
        [first, rest @ ..] => {
            writeln!(writer, "{first}")?;
            print_lines(rest, writer)
        }
    }
}

fn print_marks<W: Write>(marks: &[Newest], writer: &mut W) -> io::Result<()>
    ensures { OnOk result (Appends (W.contents writer.old) (W.contents writer.new) (newest_lines marks.now)) }
{
    match marks {
        [] => Ok(()),
        [first, rest @ ..] => {
            print_mark(first, writer)?;
            writer.write_all(b"\n")?;
            print_marks(rest, writer)
        }
    }
}

#[tactic(auto, unfolding(crate::specs::Newest::newest_line))]
fn print_mark<W: Write>(mark: &Newest, writer: &mut W) -> io::Result<()>
    ensures { OnOk result (Appends (W.contents writer.old) (W.contents writer.new) (newest_line mark.now)) }
{
    let handler = mark.handler;
    let block = mark.block;
    let client = block.client;
    write!(writer, "newest.{handler}.{client} = \"{block}\"")
}
