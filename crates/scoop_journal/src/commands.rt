//! Commands, from their words.

ghost use Rattle.std.specs.Prelude.{◌≡◌, IfOk, map, option_copied};
ghost use Rattle.std.specs.Fmt.{decimal};
ghost use Rattle.scoop_journal.specs.Line.{command_words, handler_word, request_words, spaced};
ghost use Rattle.scoop_journal.specs.Reading.{following};

use crate::fault::LineFault;
use crate::words::{cut, handler, next, none, number, number_u16};
use arrayvec::ArrayVec;
use scoop_client::{Command, HandlerList};
use scoop_lines::is;
use scoop_message::limits::MAX_ARGS;
use scoop_message::{Args, HandlerId, Request};

// The most handlers of a command.
const MAX_HANDLERS: usize = 9;

/// The command of these words.
pub(crate) fn read_command(rest: Option<&[u8]>) -> Result<Command, LineFault>
    ensures { IfOk result (λ command. following (option_copied rest.entry) ≡ spaced (command_words command)) }
{
    let (name, rest) = next(rest)?;
    if is(name, "call") {
        return match read_request(rest) {
            Ok((handler, request)) => Ok(Command::Call(handler, request)),
            Err(fault) => Err(fault),
        };
    }
    if is(name, "query") {
        return match read_request(rest) {
            Ok((handler, request)) => Ok(Command::Query(handler, request)),
            Err(fault) => Err(fault),
        };
    }
    if is(name, "reserve") {
        return match read_handlers(rest) {
            Ok(handlers) => Ok(Command::Reserve(handlers)),
            Err(fault) => Err(fault),
        };
    }
    if is(name, "end") {
        none(rest)?;
        return Ok(Command::End);
    }
    if is(name, "giveup") {
        none(rest)?;
        return Ok(Command::GiveUp);
    }
    Err(LineFault::UnknownLine)
}

// The handlers of these words.
fn read_handlers(mut rest: Option<&[u8]>) -> Result<HandlerList, LineFault>
    ensures { IfOk result (λ handlers. following (option_copied rest.entry) ≡ spaced (map handler_word handlers)) }
{
    let mut handlers = [HandlerId(0); MAX_HANDLERS];
    let mut count = 0;
    while let Some(text) = rest {
        let (word, behind) = cut(text);
        let handler = handler(word)?;
        if count == MAX_HANDLERS {
            return Err(LineFault::TooMany);
        }
        handlers[count] = handler;
        count += 1;
        rest = behind;
    }
    match HandlerList::of(&handlers[..count]) {
        Ok(list) => Ok(list),
        Err(_) => Err(LineFault::TooMany),
    }
}

// The handler, the operation and the arguments of these words.
fn read_request(rest: Option<&[u8]>) -> Result<(HandlerId, Request), LineFault>
    ensures { IfOk result (λ x. following (option_copied rest.entry) ≡ spaced (request_words x.0 x.1)) }
{
    let (word, rest) = next(rest)?;
    let (op, rest) = next(rest)?;
    let handler = handler(word)?;
    let op = number_u16(op)?;
    match read_args(rest) {
        Ok(args) => Ok((handler, Request { op, args })),
        Err(fault) => Err(fault),
    }
}

// The arguments of these words.
fn read_args(mut rest: Option<&[u8]>) -> Result<Args, LineFault>
    ensures { IfOk result (λ args. following (option_copied rest.entry) ≡ spaced (map decimal args)) }
{
    let mut args = ArrayVec::<u64, MAX_ARGS>::new();
    while let Some(text) = rest {
        let (word, behind) = cut(text);
        let arg = number(word)?;
        if args.try_push(arg).is_err() {
            return Err(LineFault::TooMany);
        }
        rest = behind;
    }
    match Args::of(&args) {
        Ok(args) => Ok(args),
        Err(_) => Err(LineFault::TooMany),
    }
}
