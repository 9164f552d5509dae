//! Runs of scripts.

mod cast;
mod echo;
mod events;
mod histories;
mod picture;
mod settling;

ghost use Rattle.std.specs.Prelude.{◌≡◌, IfErr, OnOk, false, [], is_some};
ghost use Rattle.scoop_demo.specs.Script.{PlaysAll, StopsPlaying, parties_of};
ghost use Rattle.scoop_demo.specs.Staging.{IsWaiting};
ghost use Rattle.scoop_keeper.specs.Memory.{incarnation_at};

use crate::fault::{InputFault, RunError};
use arrayvec::ArrayVec;
use cast::Cast;
use events::Stop;
pub use picture::Picture;
use scoop_keeper::MemoryKeeper;
use scoop_lines::Lines;
use scoop_object::{Behaviour, Table};
use std::alloc::Global;
use std::io::{Read, Write};

/// Options of a run of a script.
#[derive(Clone, Copy)]
pub struct PlayOptions {
    /// Writes each line with its number before the line of its event: `18: take 19 = Unlock 7.1.1 to 1`. `take` and
    /// `trip` show the message, `run` and `finish` the entry that ran.
    pub echoes: bool,
    /// A refused event ends the run, as a fault of its line.
    pub is_strict: bool,
    /// After the last line, plays the next useful event until the world is calm, that is, quiescent: jobs begin and
    /// finish, clients ask handlers, and clients end their blocks. Each event writes its line, with `echoes` after a line
    /// as `settle: trip 7 1 = Unlock 7.1.1 to 1`.
    pub settles: bool,
}

/// Plays a script. Its first lines place handlers and let clients join; the first line of an event opens their world over
/// the keeper. Each event writes a line. After the last line come the histories: the common list of blocks, what opened
/// and what ran at each handler, and what each client accepted.
///
/// The writer is flushed before each read of the input, which may wait for the user, and at the end.
///
/// # Errors
/// The first line with a fault, a failed output, or out of memory. The output of earlier lines stays, and no histories are
/// written.
pub fn world_run<R: Read + Drop, W: Write>(
    alloc: Global,
    keeper: MemoryKeeper,
    reader: R,
    writer: &mut W,
) -> Result<(), RunError>
    ensures ok { OnOk result (PlaysAll (R.remaining reader) (incarnation_at keeper)) }
    ensures err { IfErr result (StopsPlaying false (R.remaining reader) (incarnation_at keeper)) }
{
    let options = PlayOptions {
        echoes: false,
        is_strict: false,
        settles: false,
    };
    world_run_with(alloc, keeper, options, reader, writer)
}

/// Plays a script with options. A refused event that ends the run has written its line.
pub fn world_run_with<R: Read + Drop, W: Write>(
    alloc: Global,
    keeper: MemoryKeeper,
    options: PlayOptions,
    reader: R,
    writer: &mut W,
) -> Result<(), RunError>
    ensures ok { OnOk result (PlaysAll (R.remaining reader) (incarnation_at keeper)) }
    ensures err { IfErr result (StopsPlaying options.is_strict (R.remaining reader) (incarnation_at keeper)) }
{
    world_run_charted(
        alloc,
        keeper,
        options,
        reader,
        &mut Picture::unwanted(alloc),
        writer,
    )
}

/// Plays a script with options, and notes each event in the picture if one is given. The picture can be drawn after any end.
pub fn world_run_charted<R: Read + Drop, W: Write>(
    alloc: Global,
    keeper: MemoryKeeper,
    options: PlayOptions,
    reader: R,
    picture: &mut Picture,
    writer: &mut W,
) -> Result<(), RunError>
    ensures ok { OnOk result (PlaysAll (R.remaining reader) (incarnation_at keeper)) }
    ensures err { IfErr result (StopsPlaying options.is_strict (R.remaining reader) (incarnation_at keeper)) }
{
    let played = play_all(alloc, keeper, options, reader, picture, writer);
    let flushed = writer.flush();
    match played {
        Ok(()) if flushed.is_err() => Err(RunError::Write),
        played => played,
    }
}

// Plays the lines of a script, and writes the histories.
fn play_all<R: Read + Drop, W: Write>(
    alloc: Global,
    keeper: MemoryKeeper,
    options: PlayOptions,
    reader: R,
    picture: &mut Picture,
    writer: &mut W,
) -> Result<(), RunError>
    ensures ok { OnOk result (PlaysAll (R.remaining reader) (incarnation_at keeper)) }
    ensures err { IfErr result (StopsPlaying options.is_strict (R.remaining reader) (incarnation_at keeper)) }
{
    let mut cast = Cast::new(alloc, keeper);
    match play_lines(&mut cast, options, reader, picture, writer) {
        Ok(()) => {}
        Err(error) => return Err(error),
    }
    match cast.finish(options, picture, writer) {
        Ok(()) => Ok(()),
        Err(Stop::Write) => Err(RunError::Write),
        Err(Stop::OutOfMemory) => Err(RunError::OutOfMemory),
    }
}

// Plays the lines of a script until one stops the run. Without a line of an event, the world opens at the end.
fn play_lines<R: Read + Drop, W: Write>(
    cast: &mut Cast,
    options: PlayOptions,
    reader: R,
    picture: &mut Picture,
    writer: &mut W,
) -> Result<(), RunError>
    requires closed { is_some cast.old.world ≡ false }
    requires waits { IsWaiting ⟦<Table as Behaviour>⟧.class cast.old.placements.items cast.old.clients.items (incarnation_at cast.old.keeper)
        (parties_of []) (incarnation_at cast.old.keeper) }
    ensures ok { OnOk result (PlaysAll (R.remaining reader) (incarnation_at cast.old.keeper)) }
    ensures err { IfErr result (StopsPlaying options.is_strict (R.remaining reader) (incarnation_at cast.old.keeper)) }
{
    let mut lines = Lines::new(reader);
    let mut line = ArrayVec::new();
    loop {
        let taken = lines.number();
        match lines.next_line(&mut line, writer) {
            Ok(true) => {}
            Ok(false) => return cast.open_by(taken.max(1), picture),
            Err(error) => return Err(RunError::from(error)),
        }
        let number = lines.number();
        match cast.play_line(number, line.as_slice(), options.echoes, picture, writer) {
            Ok(()) => {}
            Err(error) => return Err(error),
        }
        if options.is_strict && cast.is_refused {
            return Err(RunError::Input {
                line: number,
                fault: InputFault::Refused,
            });
        }
    }
}
