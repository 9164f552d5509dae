//! A handler's state in words.

use scoop_handler::{HandlerState, Mark, Stage};
use scoop_queue::{Head, QueueState};
use std::io;
use std::io::Write;

/// Writes the state in words: a line for the handler, one for its lock, and one for each private queue and each client.
pub fn print_state<W: Write>(state: &HandlerState, writer: &mut W) -> io::Result<()> {
    print_words(state, writer)?;
    match state.holder() {
        Some(block) => writeln!(writer, "  lock held by block {block}")?,
        None => writer.write_all(b"  lock held by nobody\n")?,
    }
    print_queues(state, writer)?;
    print_marks(state, writer)
}

fn print_words<W: Write>(state: &HandlerState, writer: &mut W) -> io::Result<()> {
    let handler = state.handler();
    let words = state.words();
    write!(writer, "handler {handler}: words")?;
    for word in words.as_slice() {
        write!(writer, " {word}")?;
    }
    writer.write_all(b"\n")
}

fn print_queues<W: Write>(state: &HandlerState, writer: &mut W) -> io::Result<()> {
    let queues = state.queues();
    for place in 0..queues.list_len() {
        if let Some(head) = queues.head(place) {
            print_queue(head, queues.pending_len(head.block), writer)?;
        }
    }
    Ok(())
}

fn print_queue<W: Write>(head: Head, pending: usize, writer: &mut W) -> io::Result<()> {
    let block = head.block;
    let first = head.first;
    let state = match head.state {
        QueueState::Open => "open",
        QueueState::Ended => "ended",
        QueueState::Cut => "cut",
    };
    writeln!(
        writer,
        "  queue of block {block}: {state}, {pending} entries wait from entry {first}"
    )
}

fn print_marks<W: Write>(state: &HandlerState, writer: &mut W) -> io::Result<()> {
    for place in 0..state.marks() {
        if let Some(mark) = state.mark(place) {
            print_mark(&mark, writer)?;
        }
    }
    Ok(())
}

fn print_mark<W: Write>(mark: &Mark, writer: &mut W) -> io::Result<()> {
    let client = mark.client;
    let inc = mark.inc;
    write!(writer, "  client {client}: incarnation {inc}")?;
    if mark.num == 0 {
        return writer.write_all(b", no block yet\n");
    }
    let block = mark.num;
    let received = mark.received;
    let stage = match mark.stage {
        Stage::Held => "held",
        Stage::Open => "open",
        Stage::Shut => "shut",
    };
    let ended = if mark.ended { ", ended" } else { "" };
    writeln!(
        writer,
        ", block {block} {stage}, {received} entries received{ended}"
    )
}
