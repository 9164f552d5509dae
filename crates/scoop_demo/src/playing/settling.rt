//! Settling of a world after the last line of its script.

use crate::playing::echo::Echo;
use crate::playing::events::{Stop, play};
use crate::playing::picture::Picture;
use crate::script::EventLine;
use scoop_calm::{Next, left_of, next_of};
use scoop_message::OutOfMemory;
use scoop_object::Table;
use scoop_world::{Command, Event, World};
use std::alloc::Global;
use std::io;
use std::io::Write;

/// Plays the next useful event of the world until the world is calm. Each event writes its line, after its echo if
/// `echoes` is set: the script's line for that event. The last line says how many rounds were left at most at first, and
/// how many steps were taken. A step is one of these events, or the three of a trip.
pub fn settle<W: Write>(
    alloc: Global,
    world: &mut World<Table>,
    echoes: bool,
    picture: &mut Picture,
    writer: &mut W,
) -> Result<(), Stop> {
    let left = left_of(world).map_err(|_| Stop::OutOfMemory)?;
    for taken in 0..u64::MAX {
        let found = next_of(world).map_err(|_| Stop::OutOfMemory)?;
        let Some(next) = found else {
            return print_settled(left, taken, writer).map_err(|_| Stop::Write);
        };
        let line = said(alloc, next).map_err(|_| Stop::OutOfMemory)?;
        let echo = Echo::unnumbered(echoes, &line);
        play(world, &line_of(next), echo, picture, writer)?;
    }
    Ok(())
}

// Writes how many rounds were left at most, and how many steps were taken.
fn print_settled<W: Write>(left: Option<u64>, taken: u64, writer: &mut W) -> io::Result<()> {
    match left {
        Some(left) => write!(writer, "settled: at most {left} rounds were left, ")?,
        None => writer.write_all(b"settled: more than 2^64 - 2 rounds may have been left, ")?,
    }
    writeln!(writer, "{taken} steps were taken")
}

// The script's line for the event.
fn line_of(next: Next) -> EventLine {
    match next {
        Next::Finish(handler) => EventLine::One(Event::Finish(handler)),
        Next::Begin(handler) => EventLine::One(Event::Begin(handler)),
        Next::Ask(client, handler) => EventLine::Trip(client, handler),
        Next::End(client) => EventLine::One(Event::Do(client, Command::End)),
    }
}

// The same line in words.
fn said(alloc: Global, next: Next) -> Result<Vec<u8>, OutOfMemory> {
    let mut line = Vec::new(alloc);
    let written = match next {
        Next::Finish(handler) => write!(line, "finish {handler}"),
        Next::Begin(handler) => write!(line, "begin {handler}"),
        Next::Ask(client, handler) => write!(line, "trip {client} {handler}"),
        Next::End(client) => write!(line, "end {client}"),
    };
    match written {
        Ok(()) => Ok(line),
        Err(_) => Err(OutOfMemory),
    }
}
