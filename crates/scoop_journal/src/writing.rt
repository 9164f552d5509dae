//! Lines of a journal, to their texts.

ghost use Rattle.std.specs.Prelude.{◌≡◌, ◌++◌, ◌∷◌, [], OnOk, map};
ghost use Rattle.std.specs.Fmt.{decimal};
ghost use Rattle.scoop_message.specs.Message.{Fits};
ghost use Rattle.scoop_frame.specs.Version.{Carries};
ghost use Rattle.scoop_journal.specs.Line.{FitsArrival, FitsLine, arrival_word, blob_word, command_words, frame_word, handler_word, request_words, spaced, text_of};

use crate::line::{Arrival, Line};
use itoa::Buffer;
use scoop_client::Command;
use scoop_frame::{Version, encode};
use scoop_message::limits::BUFFER_LEN;
use scoop_message::{HandlerId, Message, OutOfMemory, Request};
use std::alloc::Allocator;

/// Appends the text of a line, with its newline. Its messages fit, and its hex digits are in lower case, two for each byte.
pub fn write<A: Allocator>(line: &Line<'_>, out: &mut Vec<u8, A>) -> Result<(), OutOfMemory>
    requires { FitsLine line.now }
    ensures { OnOk result (out.new.items ≡ out.old.items ++ (text_of line.now ++ 10 ∷ [])) }
{
    match line {
        Line::NodeLife(node) => {
            put(out, b"scoop journal 1 node")?;
            put_number(out, u64::from(*node))?;
        }
        Line::ClientLife(client, inc, batch) => {
            put(out, b"scoop journal 1 client")?;
            put_number(out, u64::from(client.0))?;
            put_number(out, u64::from(*inc))?;
            put_number(out, u64::from(*batch))?;
        }
        Line::Open(handler, image, pending) => {
            put(out, b"open")?;
            put_number(out, u64::from(handler.0))?;
            put_blob(out, image)?;
            put_blob(out, pending)?;
        }
        Line::Hear(heard, reply) => {
            put(out, b"hear")?;
            put_frame(out, Version::Two, heard)?;
            match reply {
                Some(reply) => put_frame(out, Version::Two, reply)?,
                None => put(out, b" none")?,
            }
        }
        Line::Begin(handler) => {
            put(out, b"begin")?;
            put_number(out, u64::from(handler.0))?;
        }
        Line::Finish(handler) => {
            put(out, b"finish")?;
            put_number(out, u64::from(handler.0))?;
        }
        Line::Do(command) => {
            put(out, b"do")?;
            put_command(out, command)?;
        }
        Line::Turn(arrival) => {
            put(out, b"turn")?;
            put_arrival(out, arrival)?;
        }
        Line::Broke(place) => {
            put(out, b"broke")?;
            put_number(out, *place as u64)?;
        }
    }
    put(out, b"\n")
}

fn put<A: Allocator>(out: &mut Vec<u8, A>, bytes: &[u8]) -> Result<(), OutOfMemory>
    ensures { OnOk result (out.new.items ≡ out.old.items ++ bytes.now) }
{
    out.extend_from_slice(bytes)?;
    Ok(())
}

// A space and a number.
fn put_number<A: Allocator>(out: &mut Vec<u8, A>, number: u64) -> Result<(), OutOfMemory>
    ensures { OnOk result (out.new.items ≡ out.old.items ++ 32 ∷ decimal number) }
{
    put(out, b" ")?;
    put(out, Buffer::new().format(number).as_bytes())
}

// A space and hex digits, `-` for none.
fn put_blob<A: Allocator>(out: &mut Vec<u8, A>, digits: &[u8]) -> Result<(), OutOfMemory>
    ensures { OnOk result (out.new.items ≡ out.old.items ++ 32 ∷ blob_word digits.now) }
{
    put(out, b" ")?;
    if digits.is_empty() {
        put(out, b"-")
    } else {
        put(out, digits)
    }
}

// A space and the frame of a message.
fn put_frame<A: Allocator>(
    out: &mut Vec<u8, A>,
    version: Version,
    message: &Message,
) -> Result<(), OutOfMemory>
    requires fits { Fits message.now }
    requires carried { Carries version message.now }
    ensures { OnOk result (out.new.items ≡ out.old.items ++ 32 ∷ frame_word version message.now) }
{
    let mut buffer = [0; BUFFER_LEN];
    let len = encode(version, message, &mut buffer);
    let mut digits = [0; 2 * BUFFER_LEN];
    let _ = hex::encode_to_slice(&buffer[..len], &mut digits[..2 * len]);
    put(out, b" ")?;
    put(out, &digits[..2 * len])
}

fn put_arrival<A: Allocator>(out: &mut Vec<u8, A>, arrival: &Arrival) -> Result<(), OutOfMemory>
    requires { FitsArrival arrival.now }
    ensures { OnOk result (out.new.items ≡ out.old.items ++ 32 ∷ arrival_word arrival.now) }
{
    match arrival {
        Arrival::Nothing => put(out, b" none"),
        Arrival::Frame(version, message) => put_frame(out, *version, message),
        Arrival::NoFrame => put(out, b" noframe"),
        Arrival::Fault => put(out, b" fault"),
    }
}

fn put_command<A: Allocator>(out: &mut Vec<u8, A>, command: &Command) -> Result<(), OutOfMemory>
    ensures { OnOk result (out.new.items ≡ out.old.items ++ spaced (command_words command.now)) }
{
    match command {
        Command::Reserve(handlers) => {
            put(out, b" reserve")?;
            put_handlers(out, handlers.as_slice())
        }
        Command::Call(handler, request) => {
            put(out, b" call")?;
            put_request(out, *handler, request)
        }
        Command::Query(handler, request) => {
            put(out, b" query")?;
            put_request(out, *handler, request)
        }
        Command::End => put(out, b" end"),
        Command::GiveUp => put(out, b" giveup"),
    }
}

fn put_request<A: Allocator>(
    out: &mut Vec<u8, A>,
    handler: HandlerId,
    request: &Request,
) -> Result<(), OutOfMemory>
    ensures { OnOk result (out.new.items ≡ out.old.items ++ spaced (request_words handler request.now)) }
{
    put_number(out, u64::from(handler.0))?;
    put_number(out, u64::from(request.op))?;
    put_numbers(out, request.args.as_slice())
}

fn put_numbers<A: Allocator>(out: &mut Vec<u8, A>, numbers: &[u64]) -> Result<(), OutOfMemory>
    ensures { OnOk result (out.new.items ≡ out.old.items ++ spaced (map decimal numbers.now)) }
{
    for number in numbers {
        put_number(out, *number)?;
    }
    Ok(())
}

fn put_handlers<A: Allocator>(
    out: &mut Vec<u8, A>,
    handlers: &[HandlerId],
) -> Result<(), OutOfMemory>
    ensures { OnOk result (out.new.items ≡ out.old.items ++ spaced (map handler_word handlers.now)) }
{
    for handler in handlers {
        put_number(out, u64::from(handler.0))?;
    }
    Ok(())
}
