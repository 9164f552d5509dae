//! Lines of parties.

ghost use Rattle.std.specs.Prelude.{◌≡◌, ◌≤◌, length, Ok, Err, IfOk, IfErr};
ghost use Rattle.scoop_message.specs.declared.limits.TheConstants.{MAX_WORDS, MAX_ENTRIES};
ghost use Rattle.scoop_lines.specs.Words.{words_of};
ghost use Rattle.scoop_lines.specs.Reading.{each_of};
ghost use Rattle.scoop_demo.specs.ScriptLine.{client_line, batch_of, handler_line, class_of, words_for, number_of};
ghost use Rattle.scoop_demo.specs.LineFault.{IfFault};

use super::number::{read_numbers, read_u32, read_u64};
use crate::fault::InputFault;
use scoop_classes::demo_class;
use scoop_lines::{count_words, next_word};
use scoop_message::limits::MAX_ENTRIES;
use scoop_message::{ClientId, HandlerId, OutOfMemory, Words};
use scoop_object::Class;
use std::alloc::Global;
use std::str;

/// Why a line of a party isn't read.
#[derive(Clone, Copy, PartialEq, Eq)]
pub enum LineError {
    /// The line has this fault.
    Fault(InputFault),
    /// A growth of memory was refused.
    OutOfMemory,
}

/// A handler that a line places: its node, its number, and the class and the words of its object.
#[derive(Drop)]
pub struct PlacedLine {
    pub node: u32,
    pub handler: HandlerId,
    pub class: Class,
    pub words: Words,
}

/// A client that joins, and the number of entries that it puts into one Log, by the words after `client`.
///
/// # Errors
/// The first that applies: `WrongNumberOfWords`; `NotANumber`, also for a number of entries that isn't 1 to 4.
pub fn read_client(line: &[u8]) -> Result<(ClientId, u8), InputFault>
    ensures value { result ≡ client_line (words_of line.now) }
    ensures batch { IfOk result (λ joining. (1 ≤ joining.1) × (joining.1 ≤ MAX_ENTRIES)) }
{
    let Some((client, rest)) = next_word(line) else {
        return Err(InputFault::WrongNumberOfWords);
    };
    let Some((batch, rest)) = next_word(rest) else {
        return Ok((ClientId(read_u32(client)?), 1));
    };
    if next_word(rest).is_some() {
        return Err(InputFault::WrongNumberOfWords);
    }
    let client = ClientId(read_u32(client)?);
    let batch = read_batch(batch)?;
    Ok((client, batch))
}

// The number of entries that a client puts into one Log.
fn read_batch(word: &[u8]) -> Result<u8, InputFault>
    ensures value { result ≡ batch_of word.now }
    ensures bounds { IfOk result (λ batch. (1 ≤ batch) × (batch ≤ MAX_ENTRIES)) }
{
    match read_u64(word)? {
        batch if 1 <= batch && batch <= MAX_ENTRIES as u64 => Ok(batch as u8),
        _ => Err(InputFault::NotANumber),
    }
}

/// A handler that a line places, by the words after `handler`.
///
/// # Errors
/// - `WrongNumberOfWords`: there are fewer than three words.
/// - Else the first fault from the left: `NotANumber`, `NoSuchClass`, `WrongNumberOfWords` if the class has another
///   number of words, and `NotANumber` again.
/// - `OutOfMemory`.
pub fn read_placement(alloc: Global, line: &[u8]) -> Result<PlacedLine, LineError>
    ensures ok { IfOk result (λ placed. handler_line (words_of line.now)
        ≡ Ok (record { node = placed.node; handler = placed.handler; class = placed.class; words = placed.words })) }
    ensures fits { IfOk result (λ placed. length placed.words ≡ placed.class.words) }
    ensures fault { IfErr result (λ e. IfFault e (λ fault. handler_line (words_of line.now) ≡ Err fault)) }
{
    let Some((node, rest)) = next_word(line) else {
        return Err(LineError::Fault(InputFault::WrongNumberOfWords));
    };
    let Some((handler, rest)) = next_word(rest) else {
        return Err(LineError::Fault(InputFault::WrongNumberOfWords));
    };
    let Some((class, words)) = next_word(rest) else {
        return Err(LineError::Fault(InputFault::WrongNumberOfWords));
    };
    let node = match read_u32(node) {
        Ok(node) => node,
        Err(fault) => return Err(LineError::Fault(fault)),
    };
    let handler = match read_u32(handler) {
        Ok(handler) => HandlerId(handler),
        Err(fault) => return Err(LineError::Fault(fault)),
    };
    let class = match read_class(alloc, class) {
        Ok(class) => class,
        Err(error) => return Err(error),
    };
    match read_words(&class, words) {
        Ok(words) => Ok(PlacedLine {
            node,
            handler,
            class,
            words,
        }),
        Err(fault) => Err(LineError::Fault(fault)),
    }
}

// The class of a name.
fn read_class(alloc: Global, word: &[u8]) -> Result<Class, LineError>
    ensures ok { IfOk result (λ class. class_of word.now ≡ Ok class) }
    ensures fault { IfErr result (λ e. IfFault e (λ fault. class_of word.now ≡ Err fault)) }
{
    let Ok(name) = str::from_utf8(word) else {
        return Err(LineError::Fault(InputFault::NoSuchClass));
    };
    match demo_class(alloc, name) {
        Ok(Some(class)) => Ok(class),
        Ok(None) => Err(LineError::Fault(InputFault::NoSuchClass)),
        Err(OutOfMemory) => Err(LineError::OutOfMemory),
    }
}

// The words of an object, as many as its class has.
fn read_words(class: &Class, line: &[u8]) -> Result<Words, InputFault>
    ensures { result ≡ words_for class.now (words_of line.now) }
{
    if count_words(line) != class.words() {
        return Err(InputFault::WrongNumberOfWords);
    }
    let numbers = read_numbers(line)?;
    match Words::of(numbers.as_slice()) {
        Ok(words) => Ok(words),
        Err(_) => unreachable!(),
    }
}
