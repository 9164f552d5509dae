//! Messages read from words.

ghost use Rattle.std.specs.Prelude.{◌≡◌, IsTrue, IfOk, IfNone};
ghost use Rattle.scoop_message.specs.Message.{Fits};
ghost use Rattle.scoop_frame.specs.Version.{Carries};
ghost use Rattle.scoop_demo.specs.FrameWords.{frame_words};

use super::print_message;
use crate::fault::InputFault;
use crate::script::{read_u16, read_u32, read_u64};
use arrayvec::ArrayVec;
use scoop_frame::{FrameError, Version};
use scoop_lines::{count_words, is, next_word, one_word};
use scoop_message::limits::{MAX_ARGS, MAX_ENTRIES};
use scoop_message::{
    Answer, Args, Block, ClientId, Entries, Entry, HandlerId, Message, OutOfMemory, Request,
};
use std::alloc::Global;
use std::error::Error;
use std::fmt;

/// Why words make no message with a frame.
#[derive(Clone, Copy, Debug, PartialEq, Eq)]
pub enum WordsError {
    /// They aren't the words of a message.
    Fault(InputFault),
    /// The message has no frame of that version. The reason is the error of its bytes.
    Refused(FrameError),
    /// A growth of memory was refused.
    OutOfMemory,
}

impl fmt::Display for WordsError {
    fn fmt<W: fmt::Write>(&self, f: &mut fmt::Formatter<W>) -> fmt::Result {
        match self {
            WordsError::Fault(fault) => write!(f, "{fault}"),
            WordsError::Refused(error) => write!(f, "refused {error}"),
            WordsError::OutOfMemory => f.write_str("out of memory"),
        }
    }
}

impl Error for WordsError {}

impl From<InputFault> for WordsError {
    fn from(fault: InputFault) -> WordsError {
        WordsError::Fault(fault)
    }
}

impl From<OutOfMemory> for WordsError {
    fn from(_: OutOfMemory) -> WordsError {
        WordsError::OutOfMemory
    }
}

/// Reads a message and the version of its frame from words: exactly those that `print_message` writes. So words are
/// separated by one space, and numbers have no leading zeros. The message fits, and the version carries it.
///
/// # Errors
/// - `Refused(FieldZero)`: an incarnation, block or entry number is 0.
/// - `Refused(BadBody)`: version 1 with several entries, more than four entries, an entry after an End, or a last entry
///   number above 2^32-1.
/// - `Fault`: `NoSuchKind`, `WrongNumberOfWords`, `TooManyArguments` or `NotANumber`.
/// - `OutOfMemory`.
pub fn read_message(alloc: Global, line: &[u8]) -> Result<(Version, Message), WordsError>
    ensures words { IfOk result (λ read. frame_words read.0 read.1 ≡ line.now) }
    ensures fits { IfOk result (λ read. Fits read.1) }
    ensures carried { IfOk result (λ read. Carries read.0 read.1) }
{
    let (version, message) = parsed(line)?;
    if let Some(error) = refusal(version, &message) {
        return Err(WordsError::Refused(error));
    }
    let text = words_of(alloc, version, &message)?;
    if !is_same(text.as_slice(), line) {
        return Err(WordsError::Fault(InputFault::NotANumber));
    }
    Ok((version, message))
}

// The message in words.
fn words_of(alloc: Global, version: Version, message: &Message) -> Result<Vec<u8>, OutOfMemory>
    ensures { IfOk result (λ text. text.items ≡ frame_words version message.now) }
{
    let mut text = Vec::new(alloc);
    match print_message(version, message, &mut text) {
        Ok(()) => Ok(text),
        Err(_) => Err(OutOfMemory),
    }
}

fn is_same(text: &[u8], line: &[u8]) -> bool
    ensures { IsTrue result → text.now ≡ line.now }
{
    text == line
}

// Why the message has no frame of the version.
fn refusal(version: Version, message: &Message) -> Option<FrameError>
    ensures fits { IfNone result (Fits message.now) }
    ensures carried { IfNone result (Carries version message.now) }
{
    if message.fits() && version.carries(message) {
        return None;
    }
    if lacks_number(message) {
        return Some(FrameError::FieldZero);
    }
    Some(FrameError::BadBody)
}

fn lacks_number(message: &Message) -> bool {
    match message {
        Message::Hello(_, _, inc) | Message::Welcome(_, _, inc) => *inc == 0,
        Message::Lock(_, block)
        | Message::Locked(_, block)
        | Message::Busy(_, block)
        | Message::Open(_, block)
        | Message::Opened(_, block)
        | Message::Unlock(_, block)
        | Message::Unlocked(_, block) => lacks_block(block),
        Message::Log(_, block, number, _)
        | Message::Logged(_, block, number)
        | Message::Answer(_, block, number, _) => lacks_block(block) || *number == 0,
    }
}

fn lacks_block(block: &Block) -> bool {
    block.inc == 0 || block.num == 0
}

// The words as a message, with or without a frame.
fn parsed(line: &[u8]) -> Result<(Version, Message), WordsError> {
    let (word, rest) = first(line)?;
    if is(word, "v2") {
        let (kind, rest) = first(rest)?;
        return Ok((Version::Two, message(kind, rest)?));
    }
    Ok((Version::One, message(word, rest)?))
}

fn first(line: &[u8]) -> Result<(&[u8], &[u8]), InputFault> {
    next_word(line).ok_or(InputFault::WrongNumberOfWords)
}

// The message of this kind, by the words after the kind.
fn message(kind: &[u8], line: &[u8]) -> Result<Message, WordsError> {
    let message = if is(kind, "Hello") {
        let (handler, client, inc) = greeting(line)?;
        Message::Hello(handler, client, inc)
    } else if is(kind, "Welcome") {
        let (handler, client, inc) = greeting(line)?;
        Message::Welcome(handler, client, inc)
    } else if is(kind, "Log") {
        let (handler, block, rest) = about_block(line)?;
        let (number, rest) = first(rest)?;
        Message::Log(handler, block, read_u32(number)?, entries(rest)?)
    } else if is(kind, "Logged") {
        let (handler, block, rest) = about_block(line)?;
        Message::Logged(handler, block, read_u32(last(rest)?)?)
    } else if is(kind, "Answer") {
        let (handler, block, rest) = about_block(line)?;
        let (number, rest) = first(rest)?;
        Message::Answer(handler, block, read_u32(number)?, answer(last(rest)?)?)
    } else {
        let make = block_message(kind).ok_or(InputFault::NoSuchKind)?;
        let (handler, block, rest) = about_block(line)?;
        if next_word(rest).is_some() {
            return Err(WordsError::Fault(InputFault::WrongNumberOfWords));
        }
        make.of(handler, block)
    };
    Ok(message)
}

// A kind of message with a handler and a block alone.
#[derive(Clone, Copy)]
enum BlockKind {
    Lock,
    Locked,
    Busy,
    Open,
    Opened,
    Unlock,
    Unlocked,
}

impl BlockKind {
    fn of(self, handler: HandlerId, block: Block) -> Message {
        match self {
            BlockKind::Lock => Message::Lock(handler, block),
            BlockKind::Locked => Message::Locked(handler, block),
            BlockKind::Busy => Message::Busy(handler, block),
            BlockKind::Open => Message::Open(handler, block),
            BlockKind::Opened => Message::Opened(handler, block),
            BlockKind::Unlock => Message::Unlock(handler, block),
            BlockKind::Unlocked => Message::Unlocked(handler, block),
        }
    }
}

fn block_message(kind: &[u8]) -> Option<BlockKind> {
    match kind {
        b"Lock" => Some(BlockKind::Lock),
        b"Locked" => Some(BlockKind::Locked),
        b"Busy" => Some(BlockKind::Busy),
        b"Open" => Some(BlockKind::Open),
        b"Opened" => Some(BlockKind::Opened),
        b"Unlock" => Some(BlockKind::Unlock),
        b"Unlocked" => Some(BlockKind::Unlocked),
        _ => None,
    }
}

// The last word.
fn last(line: &[u8]) -> Result<&[u8], InputFault> {
    one_word(line).ok_or(InputFault::WrongNumberOfWords)
}

// A handler, a client and an incarnation.
fn greeting(line: &[u8]) -> Result<(HandlerId, ClientId, u32), InputFault> {
    let (handler, rest) = first(line)?;
    let (client, rest) = first(rest)?;
    let inc = last(rest)?;
    let handler = HandlerId(read_u32(handler)?);
    let client = ClientId(read_u32(client)?);
    Ok((handler, client, read_u32(inc)?))
}

// A handler and a block, and the rest of the line.
fn about_block(line: &[u8]) -> Result<(HandlerId, Block, &[u8]), InputFault> {
    let (handler, rest) = first(line)?;
    let (block, rest) = first(rest)?;
    let handler = HandlerId(read_u32(handler)?);
    Ok((handler, block_of(block)?, rest))
}

// A client, an incarnation and a number, separated by dots.
fn block_of(word: &[u8]) -> Result<Block, InputFault> {
    let (client, Some(rest)) = parted(word, b'.') else {
        return Err(InputFault::NotANumber);
    };
    let (inc, Some(num)) = parted(rest, b'.') else {
        return Err(InputFault::NotANumber);
    };
    Ok(Block {
        client: ClientId(read_u32(client)?),
        inc: read_u32(inc)?,
        num: read_u32(num)?,
    })
}

fn answer(word: &[u8]) -> Result<Answer, InputFault> {
    if is(word, "refused") {
        return Ok(Answer::Refused);
    }
    Ok(Answer::Value(read_u64(word)?))
}

// The part before the first byte of this value, and the part after it if there is one.
fn parted(word: &[u8], byte: u8) -> (&[u8], Option<&[u8]>) {
    match word.iter().position(|at| *at == byte) {
        Some(place) => (&word[..place], Some(&word[place + 1..])),
        None => (word, None),
    }
}

fn entries(line: &[u8]) -> Result<Entries, WordsError> {
    let count = count_words(line);
    if count == 0 {
        return Err(WordsError::Fault(InputFault::WrongNumberOfWords));
    }
    if count > MAX_ENTRIES {
        return Err(WordsError::Refused(FrameError::BadBody));
    }
    let mut cells = [Entry::End; MAX_ENTRIES];
    let mut rest = line;
    for i in 0..count {
        let (word, behind) = first(rest)?;
        cells[i] = entry(word)?;
        rest = behind;
    }
    Entries::of(&cells[..count]).map_err(|_| WordsError::Refused(FrameError::BadBody))
}

fn entry(word: &[u8]) -> Result<Entry, InputFault> {
    match parted(word, b':') {
        (b"call", Some(rest)) => Ok(Entry::Call(request(rest)?)),
        (b"query", Some(rest)) => Ok(Entry::Query(request(rest)?)),
        (b"end", None) => Ok(Entry::End),
        _ => Err(InputFault::NoSuchKind),
    }
}

// An operation and its arguments, separated by colons.
fn request(word: &[u8]) -> Result<Request, InputFault> {
    let (op, rest) = parted(word, b':');
    let op = read_u16(op)?;
    Ok(Request {
        op,
        args: arguments(rest)?,
    })
}

fn arguments(mut rest: Option<&[u8]>) -> Result<Args, InputFault> {
    let mut numbers = ArrayVec::<u64, MAX_ARGS>::new();
    for _ in 0..=MAX_ARGS {
        let Some(text) = rest else {
            break;
        };
        let (number, behind) = parted(text, b':');
        let number = read_u64(number)?;
        numbers
            .try_push(number)
            .map_err(|_| InputFault::TooManyArguments)?;
        rest = behind;
    }
    Args::of(numbers.as_slice()).map_err(|_| InputFault::TooManyArguments)
}
