//! Lines of events.

ghost use Rattle.std.specs.Prelude.{◌≡◌, ◌≤◌, length};
ghost use Rattle.scoop_message.specs.declared.limits.TheConstants.{MAX_ARGS};
ghost use Rattle.scoop_client.specs.declared.handlers.TheConstants.{MAX_NAMED_HANDLERS};
ghost use Rattle.scoop_lines.specs.Words.{words_of};
ghost use Rattle.scoop_lines.specs.Reading.{each_of};
ghost use Rattle.scoop_demo.specs.ScriptLine.{event_line, reserve_line, request_line, place_line, node_line, client_alone, handler_alone, pair_of, handler_of};
ghost use Rattle.scoop_demo.specs.ScriptLine.{number_of};

use super::kind::EventKind;
use super::number::{read_numbers, read_u16, read_u32, read_u64};
use crate::fault::InputFault;
use scoop_lines::{count_words, next_word, one_word, two_words};
use scoop_message::limits::MAX_ARGS;
use scoop_message::{Args, ClientId, HandlerId, Request};
use scoop_world::{Command, Event, HandlerList, MAX_NAMED_HANDLERS};

/// The events of one line.
#[derive(Clone, Copy, PartialEq, Eq)]
pub enum EventLine {
    /// One event.
    One(Event),
    /// The handler's next entry begins, and finishes at once.
    Run(HandlerId),
    /// The client sends the handler the due message, if there is one. The handler hears it, and the client hears the
    /// reply.
    Trip(ClientId, HandlerId),
}

/// The events of a line of this kind, by the words after the kind.
///
/// # Errors
/// The first that applies: `WrongNumberOfWords`, `TooManyArguments` of a request, `TooManyHandlers` of a reserve,
/// `NotANumber`.
pub fn read_event(kind: EventKind, line: &[u8]) -> Result<EventLine, InputFault>
    ensures { result ≡ event_line kind (words_of line.now) }
{
    match kind {
        EventKind::Reserve => read_reserve(line),
        EventKind::Call => {
            let (client, handler, request) = read_request(line)?;
            Ok(told(client, Command::Call(handler, request)))
        }
        EventKind::Query => {
            let (client, handler, request) = read_request(line)?;
            Ok(told(client, Command::Query(handler, request)))
        }
        EventKind::End => Ok(told(read_client_alone(line)?, Command::End)),
        EventKind::GiveUp => Ok(told(read_client_alone(line)?, Command::GiveUp)),
        EventKind::Tick => {
            let (client, handler) = read_pair(line)?;
            Ok(EventLine::One(Event::Tick(client, handler)))
        }
        EventKind::Take => Ok(EventLine::One(Event::Take(read_place(line)?))),
        EventKind::Begin => Ok(EventLine::One(Event::Begin(read_handler_alone(line)?))),
        EventKind::Finish => Ok(EventLine::One(Event::Finish(read_handler_alone(line)?))),
        EventKind::Run => Ok(EventLine::Run(read_handler_alone(line)?)),
        EventKind::Trip => {
            let (client, handler) = read_pair(line)?;
            Ok(EventLine::Trip(client, handler))
        }
        EventKind::RestartClient => Ok(EventLine::One(Event::ClientRestart(read_client_alone(
            line,
        )?))),
        EventKind::RestartNode => Ok(EventLine::One(Event::NodeRestart(read_node(line)?))),
    }
}

fn told(client: ClientId, command: Command) -> EventLine
    ensures { result ≡ EventLine.One (Event.Do client command) }
{
    EventLine::One(Event::Do(client, command))
}

// A client, and up to `MAX_NAMED_HANDLERS` handlers.
fn read_reserve(line: &[u8]) -> Result<EventLine, InputFault>
    ensures { result ≡ reserve_line (words_of line.now) }
{
    let Some((client, rest)) = next_word(line) else {
        return Err(InputFault::WrongNumberOfWords);
    };
    if count_words(rest) > MAX_NAMED_HANDLERS {
        return Err(InputFault::TooManyHandlers);
    }
    let client = ClientId(read_u32(client)?);
    let handlers = read_handlers(rest)?;
    Ok(told(client, Command::Reserve(handlers)))
}

// Up to `MAX_NAMED_HANDLERS` handlers.
fn read_handlers(line: &[u8]) -> Result<HandlerList, InputFault>
    requires { length (words_of line.now) ≤ MAX_NAMED_HANDLERS }
    ensures { result ≡ each_of handler_of (words_of line.now) }
{
    let mut handlers = [HandlerId(0); MAX_NAMED_HANDLERS];
    let mut count = 0;
    let mut rest = line;
    while let Some((word, behind)) = next_word(rest) {
        match read_u32(word) {
            Ok(number) => handlers[count] = HandlerId(number),
            Err(fault) => return Err(fault),
        }
        count += 1;
        rest = behind;
    }
    match HandlerList::of(&handlers[..count]) {
        Ok(handlers) => Ok(handlers),
        Err(_) => unreachable!(),
    }
}

// A client, a handler, and an operation with up to `MAX_ARGS` arguments.
fn read_request(line: &[u8]) -> Result<(ClientId, HandlerId, Request), InputFault>
    ensures { result ≡ request_line (words_of line.now) }
{
    let Some((client, rest)) = next_word(line) else {
        return Err(InputFault::WrongNumberOfWords);
    };
    let Some((handler, rest)) = next_word(rest) else {
        return Err(InputFault::WrongNumberOfWords);
    };
    let Some((op, args)) = next_word(rest) else {
        return Err(InputFault::WrongNumberOfWords);
    };
    if count_words(args) > MAX_ARGS {
        return Err(InputFault::TooManyArguments);
    }
    let client = ClientId(read_u32(client)?);
    let handler = HandlerId(read_u32(handler)?);
    let op = read_u16(op)?;
    let args = read_args(args)?;
    Ok((client, handler, Request { op, args }))
}

// Up to `MAX_ARGS` arguments.
fn read_args(line: &[u8]) -> Result<Args, InputFault>
    requires { length (words_of line.now) ≤ MAX_ARGS }
    ensures { result ≡ each_of number_of (words_of line.now) }
{
    let numbers = read_numbers(line)?;
    match Args::of(numbers.as_slice()) {
        Ok(args) => Ok(args),
        Err(_) => unreachable!(),
    }
}

// A client, and nothing else.
fn read_client_alone(line: &[u8]) -> Result<ClientId, InputFault>
    ensures { result ≡ client_alone (words_of line.now) }
{
    let Some(client) = one_word(line) else {
        return Err(InputFault::WrongNumberOfWords);
    };
    Ok(ClientId(read_u32(client)?))
}

// A handler, and nothing else.
fn read_handler_alone(line: &[u8]) -> Result<HandlerId, InputFault>
    ensures { result ≡ handler_alone (words_of line.now) }
{
    let Some(handler) = one_word(line) else {
        return Err(InputFault::WrongNumberOfWords);
    };
    Ok(HandlerId(read_u32(handler)?))
}

// A client and a handler.
fn read_pair(line: &[u8]) -> Result<(ClientId, HandlerId), InputFault>
    ensures { result ≡ pair_of (words_of line.now) }
{
    let Some((client, handler)) = two_words(line) else {
        return Err(InputFault::WrongNumberOfWords);
    };
    let client = ClientId(read_u32(client)?);
    let handler = HandlerId(read_u32(handler)?);
    Ok((client, handler))
}

// A place in the list of sent messages.
fn read_place(line: &[u8]) -> Result<usize, InputFault>
    ensures { result ≡ place_line (words_of line.now) }
{
    let Some(place) = one_word(line) else {
        return Err(InputFault::WrongNumberOfWords);
    };
    Ok(read_u64(place)? as usize)
}

// A node.
fn read_node(line: &[u8]) -> Result<u32, InputFault>
    ensures { result ≡ node_line (words_of line.now) }
{
    let Some(node) = one_word(line) else {
        return Err(InputFault::WrongNumberOfWords);
    };
    read_u32(node)
}
