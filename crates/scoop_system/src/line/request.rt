//! Requests in a line.

ghost use Rattle.std.specs.Prelude.{◌≡◌, ◌≤◌, length};
ghost use Rattle.scoop_message.specs.declared.limits.TheConstants.{MAX_ARGS};
ghost use Rattle.scoop_lines.specs.Words.{words_of};
ghost use Rattle.scoop_lines.specs.Reading.{each_of};
ghost use Rattle.scoop_system.specs.declared.line.words.Border.TheVariants.{Test};
ghost use Rattle.scoop_system.specs.Words.{before};
ghost use Rattle.scoop_system.specs.System.{handler_named};
ghost use Rattle.scoop_system.specs.Line.{request_line, request_of, operation_of, unnamed_fault, number_of, count_fault};

use super::fault::LineFault;
use super::number::{read_handler, read_u16, read_u64};
use super::words::{Border, arguments_in, behind, count_before, is_border};
use crate::shown_word::ShownWord;
use crate::system::System;
use scoop_lines::{is_decimal, next_word};
use scoop_message::limits::MAX_ARGS;
use scoop_message::{Args, HandlerId, Request};

// A handler and a request, and no test.
pub(super) fn read_request_alone(
    system: &System,
    line: &[u8],
) -> Result<(HandlerId, Request), LineFault>
    ensures { result ≡ request_line system.now (words_of line.now) }
{
    let Some(args) = arguments_in(line) else {
        return Err(LineFault::WrongNumberOfWords);
    };
    match behind(args, Border::Test) {
        None => read_request(system, line),
        Some(_) => Err(LineFault::WrongNumberOfWords),
    }
}

// A handler, an operation, and the arguments up to a test.
pub(super) fn read_request(system: &System, line: &[u8]) -> Result<(HandlerId, Request), LineFault>
    ensures { result ≡ request_of system.now (words_of line.now) }
{
    let Some((place, rest)) = next_word(line) else {
        return Err(LineFault::WrongNumberOfWords);
    };
    let Some((op, args)) = next_word(rest) else {
        return Err(LineFault::WrongNumberOfWords);
    };
    if count_before(args, Border::Test) > MAX_ARGS {
        return Err(LineFault::TooManyArguments(MAX_ARGS));
    }
    let handler = read_handler(system, place)?;
    let op = read_operation(system, handler, place, op)?;
    let args = read_args(args)?;
    match count_fault(system.arguments(handler, op), args.len()) {
        Some(fault) => Err(fault),
        None => Ok((handler, Request { op, args })),
    }
}

// The fault of a number of arguments, if the operation's number of arguments is known.
fn count_fault(wanted: Option<usize>, given: usize) -> Option<LineFault>
    ensures { result ≡ count_fault wanted given }
{
    match wanted {
        Some(wanted) if given < wanted => Some(LineFault::TooFewArguments(wanted)),
        Some(wanted) if given > wanted => Some(LineFault::TooManyArguments(wanted)),
        _ => None,
    }
}

// An operation by its number, or by its name in the class of the handler, which the line writes as `place`.
fn read_operation(
    system: &System,
    handler: HandlerId,
    place: &[u8],
    word: &[u8],
) -> Result<u16, LineFault>
    ensures { result ≡ operation_of system.now handler place.now word.now }
{
    if is_decimal(word) {
        return read_u16(word);
    }
    match system.operation(handler, word) {
        Some(op) => Ok(op),
        None => Err(unnamed_fault(system, handler, place, word)),
    }
}

// The fault of a name that no operation of the handler has.
fn unnamed_fault(system: &System, handler: HandlerId, place: &[u8], word: &[u8]) -> LineFault
    ensures { result ≡ unnamed_fault handler place.now word.now (handler_named system.now.handlers handler) }
{
    match system.handler(handler) {
        Some(_) => LineFault::NoSuchOperation(handler, ShownWord::of(word)),
        None => LineFault::NoSuchHandler(ShownWord::of(place)),
    }
}

// The arguments up to a test. They are few enough.
fn read_args(line: &[u8]) -> Result<Args, LineFault>
    requires { length (before Test (words_of line.now)) ≤ MAX_ARGS }
    ensures { result ≡ each_of number_of (before Test (words_of line.now)) }
{
    let mut args = [0; MAX_ARGS];
    let mut count = 0;
    let mut rest = line;
    while let Some((word, behind)) = next_word(rest) {
        if is_border(Border::Test, word) {
            break;
        }
        match read_u64(word) {
            Ok(number) => args[count] = number,
            Err(fault) => return Err(fault),
        }
        count += 1;
        rest = behind;
    }
    match Args::of(&args[..count]) {
        Ok(args) => Ok(args),
        Err(_) => unreachable!(),
    }
}
