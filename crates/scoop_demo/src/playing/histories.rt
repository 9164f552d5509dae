//! The histories of a world, written at the end. Each line is written in pieces of some items each.

use crate::printing::{LineText, put};
use arrayvec::ArrayVec;
use itoa::Buffer;
use scoop_handler::Ran;
use scoop_message::{Answer, Block, ClientId, HandlerId};
use scoop_object::Table;
use scoop_world::World;
use std::io;
use std::io::Write;

/// Writes the common list, and then the histories of these handlers and clients.
pub fn print_world<W: Write>(
    world: &World<Table>,
    handlers: &[HandlerId],
    clients: &[ClientId],
    writer: &mut W,
) -> io::Result<()> {
    writer.write_all(b"joint")?;
    print_blocks(world.joint(), writer)?;
    for handler in handlers {
        write!(writer, "handler {handler} opened")?;
        print_blocks(world.opened(*handler).unwrap_or(&[]), writer)?;
        write!(writer, "handler {handler} ran")?;
        print_all_ran(world.ran(*handler).unwrap_or(&[]), writer)?;
    }
    for client in clients {
        write!(writer, "client {client} accepted")?;
        print_accepted(world.accepted(*client).unwrap_or(&[]), writer)?;
    }
    Ok(())
}

// Writes blocks after the name of their line: `none` if there are none.
fn print_blocks<W: Write>(blocks: &[Block], writer: &mut W) -> io::Result<()> {
    let mut line = ArrayVec::new();
    for block in blocks {
        gather_block(&mut line, " ", *block, writer)?;
    }
    end_line(&mut line, blocks.is_empty(), writer)
}

// Writes entries that have run after the name of their line: `none` if there are none.
fn print_all_ran<W: Write>(all: &[Ran], writer: &mut W) -> io::Result<()> {
    let mut line = ArrayVec::new();
    for ran in all {
        gather_ran(&mut line, ran, writer)?;
    }
    end_line(&mut line, all.is_empty(), writer)
}

// Writes accepted answers after the name of their line: `none` if there are none.
fn print_accepted<W: Write>(
    accepted: &[(HandlerId, Block, u32, Answer)],
    writer: &mut W,
) -> io::Result<()> {
    let mut line = ArrayVec::new();
    for (handler, block, number, answer) in accepted {
        gather_number(&mut line, " ", u64::from(handler.0), writer)?;
        gather_block(&mut line, ":", *block, writer)?;
        gather_answer(&mut line, *number, Some(*answer), writer)?;
    }
    end_line(&mut line, accepted.is_empty(), writer)
}

// An entry that has run.
fn gather_ran<W: Write>(line: &mut LineText, ran: &Ran, writer: &mut W) -> io::Result<()> {
    gather_block(line, " ", ran.block, writer)?;
    gather_answer(line, ran.number, ran.answer, writer)
}

// A number of an entry, and its answer: an End has none.
fn gather_answer<W: Write>(
    line: &mut LineText,
    number: u32,
    answer: Option<Answer>,
    writer: &mut W,
) -> io::Result<()> {
    gather_number(line, ":", u64::from(number), writer)?;
    match answer {
        Some(Answer::Value(value)) => gather_number(line, ":", value, writer),
        Some(Answer::Refused) => gather(line, ":refused", writer),
        None => gather(line, ":end", writer),
    }
}

// A block after a text.
fn gather_block<W: Write>(
    line: &mut LineText,
    before: &str,
    block: Block,
    writer: &mut W,
) -> io::Result<()> {
    gather_number(line, before, u64::from(block.client.0), writer)?;
    gather_number(line, ".", u64::from(block.inc), writer)?;
    gather_number(line, ".", u64::from(block.num), writer)
}

// A number in decimal digits after a text.
fn gather_number<W: Write>(
    line: &mut LineText,
    before: &str,
    number: u64,
    writer: &mut W,
) -> io::Result<()> {
    gather(line, before, writer)?;
    let mut digits = Buffer::new();
    gather(line, digits.format(number), writer)
}

// A text. Writes the gathered piece first if there is no room.
fn gather<W: Write>(line: &mut LineText, text: &str, writer: &mut W) -> io::Result<()> {
    if put(line, text).is_ok() {
        return Ok(());
    }
    writer.write_all(line.as_slice())?;
    line.clear();
    writer.write_all(text.as_bytes())
}

// Writes the gathered piece, or `none` if there are no items, and ends the line.
fn end_line<W: Write>(line: &mut LineText, is_empty: bool, writer: &mut W) -> io::Result<()> {
    let end = if is_empty { " none\n" } else { "\n" };
    gather(line, end, writer)?;
    writer.write_all(line.as_slice())
}
