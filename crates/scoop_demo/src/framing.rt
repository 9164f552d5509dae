//! Frames for people: messages in words, and back.

ghost use Rattle.std.specs.Prelude.{◌∷◌, ◌++◌, [], OnOk};
ghost use Rattle.std.specs.Io.KnownBytes.{Appends};
ghost use Rattle.scoop_message.specs.Message.{Fits};
ghost use Rattle.scoop_frame.specs.Frame.{frame};
ghost use Rattle.scoop_frame.specs.Version.{Carries};
ghost use Rattle.hex.specs.Hex.{encode_lower};
ghost use Rattle.scoop_demo.specs.FrameLine.{TellsFrame};
ghost use Rattle.scoop_demo.specs.FrameWords.{answer_words, arguments_text, request_text, entry_text, entries_text, greeting_text, block_words, fields_text};
ghost use Rattle.scoop_demo.specs.FrameWords.{version_text, frame_words};

mod reading;

use crate::datagram::{MAX_DATAGRAM_LEN, read_datagram};
use crate::fault::RunError;
use crate::printing::kind_name;
use crate::run::print_frame;
use arrayvec::ArrayVec;
pub use reading::{WordsError, read_message};
use scoop_frame::{Version, decode, encode};
use scoop_lines::Lines;
use scoop_message::limits::BUFFER_LEN;
use scoop_message::{Answer, Block, ClientId, Entry, HandlerId, Message, Request};
use std::io;
use std::io::{Read, Write};

/// Writes a message in words: `v2` for version 2, the name of its kind, its handler, its client and incarnation or its
/// block, and the number of an entry. Then comes the answer, or one word for each entry: `call:1:5`, `query:2` or `end`.
pub fn print_message<W: Write>(
    version: Version,
    message: &Message,
    writer: &mut W,
) -> io::Result<()>
    ensures { OnOk result (Appends (W.contents writer.old) (W.contents writer.new) (frame_words version message.now)) }
{
    print_version(version, writer)?;
    let kind = kind_name(message);
    writer.write_all(kind.as_bytes())?;
    print_fields(message, writer)
}

fn print_version<W: Write>(version: Version, writer: &mut W) -> io::Result<()>
    ensures { OnOk result (Appends (W.contents writer.old) (W.contents writer.new) (version_text version)) }
{
    match version {
        Version::One => Ok(()),
        Version::Two => writer.write_all(b"v2 "),
    }
}

// The words after the name of the message's kind.
fn print_fields<W: Write>(message: &Message, writer: &mut W) -> io::Result<()>
    ensures { OnOk result (Appends (W.contents writer.old) (W.contents writer.new) (fields_text message.now)) }
{
    match message {
        Message::Hello(handler, client, inc) | Message::Welcome(handler, client, inc) => {
            print_greeting(*handler, *client, *inc, writer)
        }
        Message::Lock(handler, block)
        | Message::Locked(handler, block)
        | Message::Busy(handler, block)
        | Message::Open(handler, block)
        | Message::Opened(handler, block)
        | Message::Unlock(handler, block)
        | Message::Unlocked(handler, block) => print_block(*handler, *block, writer),
        Message::Log(handler, block, number, entries) => {
            print_block(*handler, *block, writer)?;
            write!(writer, " {number}")?;
            print_entries(entries.as_slice(), writer)
        }
        Message::Logged(handler, block, number) => {
            print_block(*handler, *block, writer)?;
            write!(writer, " {number}")
        }
        Message::Answer(handler, block, number, answer) => {
            print_block(*handler, *block, writer)?;
            print_answer(*number, *answer, writer)
        }
    }
}

fn print_greeting<W: Write>(
    handler: HandlerId,
    client: ClientId,
    inc: u32,
    writer: &mut W,
) -> io::Result<()>
    ensures { OnOk result (Appends (W.contents writer.old) (W.contents writer.new) (greeting_text handler client inc)) }
{
    write!(writer, " {handler} {client} {inc}")
}

fn print_block<W: Write>(handler: HandlerId, block: Block, writer: &mut W) -> io::Result<()>
    ensures { OnOk result (Appends (W.contents writer.old) (W.contents writer.new) (block_words handler block)) }
{
    write!(writer, " {handler} {block}")
}

fn print_answer<W: Write>(number: u32, answer: Answer, writer: &mut W) -> io::Result<()>
    ensures { OnOk result (Appends (W.contents writer.old) (W.contents writer.new) (answer_words number answer)) }
{
    write!(writer, " {number} {answer}")
}

fn print_entries<W: Write>(entries: &[Entry], writer: &mut W) -> io::Result<()>
    ensures { OnOk result (Appends (W.contents writer.old) (W.contents writer.new) (entries_text entries.now)) }
{
    match entries {
        [] => Ok(()),
        [first, rest @ ..] => {
            writer.write_all(b" ")?;
            print_entry(first, writer)?;
            print_entries(rest, writer)
        }
    }
}

fn print_entry<W: Write>(entry: &Entry, writer: &mut W) -> io::Result<()>
    ensures { OnOk result (Appends (W.contents writer.old) (W.contents writer.new) (entry_text entry.now)) }
{
    match entry {
        Entry::Call(request) => {
            writer.write_all(b"call")?;
            print_request(request, writer)
        }
        Entry::Query(request) => {
            writer.write_all(b"query")?;
            print_request(request, writer)
        }
        Entry::End => writer.write_all(b"end"),
    }
}

fn print_request<W: Write>(request: &Request, writer: &mut W) -> io::Result<()>
    ensures { OnOk result (Appends (W.contents writer.old) (W.contents writer.new) (request_text request.now)) }
{
    let op = request.op;
    write!(writer, ":{op}")?;
    print_arguments(request.args.as_slice(), writer)
}

fn print_arguments<W: Write>(arguments: &[u64], writer: &mut W) -> io::Result<()>
    ensures { OnOk result (Appends (W.contents writer.old) (W.contents writer.new) (arguments_text arguments.now)) }
{
    match arguments {
        [] => Ok(()),
        [first, rest @ ..] => {
            write!(writer, ":{first}")?;
            print_arguments(rest, writer)
        }
    }
}

/// Writes the frame of a message that fits, in a version that carries it, as a line of lower-case hex digits.
pub fn print_frame_of<W: Write>(
    version: Version,
    message: &Message,
    writer: &mut W,
) -> io::Result<()>
    requires fits { Fits message.now }
    requires carried { Carries version message.now }
    ensures { OnOk result (Appends (W.contents writer.old) (W.contents writer.new) (encode_lower (frame version message.now) ++ 10 ∷ [])) }
{
    let mut out = [0; BUFFER_LEN];
    let mut room = [0; MAX_DATAGRAM_LEN];
    let len = encode(version, message, &mut out);
    print_frame(&out[..len], &mut room, writer)
}

/// Writes the line of a datagram: its message in words, or `refused` and why it is no frame.
pub fn tell_frame<W: Write>(datagram: &[u8], writer: &mut W) -> io::Result<()>
    ensures { OnOk result (TellsFrame datagram.now (W.contents writer.old) (W.contents writer.new)) }
{
    match decode(datagram) {
        Ok((version, message)) => {
            print_message(version, &message, writer)?;
            writer.write_all(b"\n")
        }
        Err(error) => writeln!(writer, "refused {error}"),
    }
}

/// Writes the messages of an input's frames, one frame in hex digits on each line, with one line for each.
///
/// The writer is flushed before each read of the input, which may wait for the user, and at the end.
///
/// # Errors
/// The first line with a fault, or a failed output. The output of earlier lines stays.
pub fn tell_frames<R: Read + Drop, W: Write>(reader: R, writer: &mut W) -> Result<(), RunError> {
    let told = tell_lines(reader, writer);
    let flushed = writer.flush();
    match told {
        Ok(()) if flushed.is_err() => Err(RunError::Write),
        told => told,
    }
}

fn tell_lines<R: Read + Drop, W: Write>(reader: R, writer: &mut W) -> Result<(), RunError> {
    let mut lines = Lines::new(reader);
    let mut line = ArrayVec::new();
    while lines.next_line(&mut line, writer)? {
        let mut buffer = [0; MAX_DATAGRAM_LEN];
        match read_datagram(&mut line, &mut buffer) {
            Ok(datagram) => tell_frame(datagram, writer).map_err(|_| RunError::Write)?,
            Err(fault) => {
                return Err(RunError::Input {
                    line: lines.number(),
                    fault,
                });
            }
        }
    }
    Ok(())
}
