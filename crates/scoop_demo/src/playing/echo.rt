//! Echoes of a script's lines, before the lines of their events.

use scoop_message::{Entry, Message, Request};
use std::io;
use std::io::Write;

/// A line to echo: its bytes, and its number if the script has it.
#[derive(Clone, Copy)]
pub struct Echo<'a> {
    number: Option<u32>,
    line: &'a [u8],
}

/// The subject of a line's event.
#[derive(Clone, Copy)]
pub enum Subject<'a> {
    /// The message that was sent or taken.
    Message(&'a Message),
    /// The entry that ran.
    Entry(&'a Entry),
    Nothing,
}

impl<'a> Echo<'a> {
    /// The echo of the line of this number, if `echoes` is set.
    pub fn of(echoes: bool, number: u32, line: &'a [u8]) -> Option<Echo<'a>> {
        if echoes {
            Some(Echo {
                number: Some(number),
                line,
            })
        } else {
            None
        }
    }

    /// The echo of a line that the script doesn't have, if `echoes` is set.
    pub fn unnumbered(echoes: bool, line: &'a [u8]) -> Option<Echo<'a>> {
        if echoes {
            Some(Echo { number: None, line })
        } else {
            None
        }
    }

    /// Writes the echo: the line's number, the line, and the subject of its event.
    pub fn print<W: Write>(&self, subject: Subject<'_>, writer: &mut W) -> io::Result<()> {
        match self.number {
            Some(number) => write!(writer, "{number}: ")?,
            None => writer.write_all(b"settle: ")?,
        }
        writer.write_all(self.line)?;
        match subject {
            Subject::Message(message) => {
                writer.write_all(b" = ")?;
                print_told(message, writer)?;
            }
            Subject::Entry(entry) => {
                writer.write_all(b" =")?;
                print_entry(entry, writer)?;
            }
            Subject::Nothing => {}
        }
        writer.write_all(b"\n")
    }
}

// Writes a message: its kind, its client or block, its numbers, and its handler.
fn print_told<W: Write>(message: &Message, writer: &mut W) -> io::Result<()> {
    match message {
        Message::Hello(h, c, inc) => write!(writer, "Hello {c}.{inc} to {h}"),
        Message::Welcome(h, c, inc) => write!(writer, "Welcome {c}.{inc} from {h}"),
        Message::Lock(h, b) => write!(writer, "Lock {b} to {h}"),
        Message::Locked(h, b) => write!(writer, "Locked {b} from {h}"),
        Message::Busy(h, b) => write!(writer, "Busy {b} from {h}"),
        Message::Open(h, b) => write!(writer, "Open {b} to {h}"),
        Message::Opened(h, b) => write!(writer, "Opened {b} from {h}"),
        Message::Unlock(h, b) => write!(writer, "Unlock {b} to {h}"),
        Message::Unlocked(h, b) => write!(writer, "Unlocked {b} from {h}"),
        Message::Log(h, b, n, entries) => {
            write!(writer, "Log {b} {n}")?;
            for entry in entries.as_slice() {
                print_entry(entry, writer)?;
            }
            write!(writer, " to {h}")
        }
        Message::Logged(h, b, n) => write!(writer, "Logged {b} {n} from {h}"),
        Message::Answer(h, b, n, answer) => write!(writer, "Answer {b} {n} {answer} from {h}"),
    }
}

// Writes an entry as a script does, with a space before it.
fn print_entry<W: Write>(entry: &Entry, writer: &mut W) -> io::Result<()> {
    match entry {
        Entry::Call(request) => print_request(" call", request, writer),
        Entry::Query(request) => print_request(" query", request, writer),
        Entry::End => writer.write_all(b" end"),
    }
}

fn print_request<W: Write>(name: &str, request: &Request, writer: &mut W) -> io::Result<()> {
    write!(writer, "{name} {}", request.op)?;
    for argument in request.args.as_slice() {
        write!(writer, " {argument}")?;
    }
    Ok(())
}
