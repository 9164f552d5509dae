//! Events of a script.

use crate::playing::echo::{Echo, Subject};
use crate::playing::picture::Picture;
use crate::printing::print_note;
use crate::script::EventLine;
use scoop_message::{ClientId, HandlerId, OutOfMemory};
use scoop_object::Table;
use scoop_world::{Event, World, WorldError, WorldNote};
use std::io;
use std::io::Write;

/// Why a script isn't played to its end.
#[derive(Clone, Copy)]
pub enum Stop {
    /// The output could not be written.
    Write,
    /// A growth of memory was refused.
    OutOfMemory,
}

/// The outcome of an event.
#[derive(Clone, Copy)]
pub enum Outcome {
    /// It was taken, and sent the message at this place.
    Sent(usize),
    /// It was taken, and sent no message.
    Taken,
    /// It was refused.
    Refused,
}

/// Plays the events of one line, and writes a line for each: `refused` and the reason for a refused event. The echo, if
/// there is one, comes first. The picture notes each event. Returns the outcome of the last event.
pub fn play<W: Write>(
    world: &mut World<Table>,
    event: &EventLine,
    echo: Option<Echo<'_>>,
    picture: &mut Picture,
    writer: &mut W,
) -> Result<Outcome, Stop> {
    match event {
        EventLine::One(event) => step(world, event, echo, picture, writer),
        EventLine::Run(handler) => run(world, *handler, echo, picture, writer),
        EventLine::Trip(client, handler) => trip(world, *client, *handler, echo, picture, writer),
    }
}

// Notes an event and its outcome in the picture.
fn draw(
    picture: &mut Picture,
    world: &World<Table>,
    event: &Event,
    outcome: &Result<WorldNote, WorldError>,
) -> Result<(), Stop> {
    match picture.note(world, event, outcome) {
        Ok(()) => Ok(()),
        Err(OutOfMemory) => Err(Stop::OutOfMemory),
    }
}

// Plays one event, and writes its line after the echo.
fn step<W: Write>(
    world: &mut World<Table>,
    event: &Event,
    echo: Option<Echo<'_>>,
    picture: &mut Picture,
    writer: &mut W,
) -> Result<Outcome, Stop> {
    let outcome = world.step(*event);
    draw(picture, world, event, &outcome)?;
    if let Some(echo) = &echo {
        written(echo.print(subject(world, event, &outcome), writer))?;
    }
    tell(world, &outcome, writer)
}

// The subject of an event: the message that was taken, or the entry that ran.
fn subject<'a>(
    world: &'a World<Table>,
    event: &Event,
    outcome: &'a Result<WorldNote, WorldError>,
) -> Subject<'a> {
    match (event, outcome) {
        (Event::Take(place), _) => subject_at(world, Some(*place)),
        (_, Ok(WorldNote::Ran(ran))) => Subject::Entry(&ran.entry),
        _ => Subject::Nothing,
    }
}

// The message that was sent at this place, if there is one.
fn subject_at(world: &World<Table>, place: Option<usize>) -> Subject<'_> {
    let Some(place) = place else {
        return Subject::Nothing;
    };
    match world.sent(place) {
        Some(message) => Subject::Message(message),
        None => Subject::Nothing,
    }
}

// Writes the line of an event's outcome.
fn tell<W: Write>(
    world: &World<Table>,
    outcome: &Result<WorldNote, WorldError>,
    writer: &mut W,
) -> Result<Outcome, Stop> {
    let note = match outcome {
        Ok(note) => note,
        Err(error) => return refuse(*error, writer),
    };
    let Some(place) = sent_by(note) else {
        written(print_note(note, None, writer))?;
        return Ok(Outcome::Taken);
    };
    written(print_note(note, world.sent(place), writer))?;
    Ok(Outcome::Sent(place))
}

// The place of the message that an event sent, if it sent one.
fn sent_by(note: &WorldNote) -> Option<usize> {
    match note {
        WorldNote::Sent(place) => Some(*place),
        WorldNote::Handler(_, reply) => *reply,
        _ => None,
    }
}

// Writes the line of a refused event. Out of memory has no line.
fn refuse<W: Write>(error: WorldError, writer: &mut W) -> Result<Outcome, Stop> {
    match error {
        WorldError::OutOfMemory => Err(Stop::OutOfMemory),
        error => {
            written(writeln!(writer, "refused {error}"))?;
            Ok(Outcome::Refused)
        }
    }
}

fn written(outcome: io::Result<()>) -> Result<(), Stop> {
    match outcome {
        Ok(()) => Ok(()),
        Err(_) => Err(Stop::Write),
    }
}

// Begins the handler's next entry, and finishes it at once. Writes one line: of the entry that ran, or of the refused
// Begin.
fn run<W: Write>(
    world: &mut World<Table>,
    handler: HandlerId,
    echo: Option<Echo<'_>>,
    picture: &mut Picture,
    writer: &mut W,
) -> Result<Outcome, Stop> {
    let event = Event::Begin(handler);
    let outcome = world.step(event);
    draw(picture, world, &event, &outcome)?;
    if let Err(error) = outcome {
        if let Some(echo) = &echo {
            written(echo.print(Subject::Nothing, writer))?;
        }
        return refuse(error, writer);
    }
    step(world, &Event::Finish(handler), echo, picture, writer)
}

// The client sends the handler the due message. The handler hears it, and the client hears the reply.
fn trip<W: Write>(
    world: &mut World<Table>,
    client: ClientId,
    handler: HandlerId,
    echo: Option<Echo<'_>>,
    picture: &mut Picture,
    writer: &mut W,
) -> Result<Outcome, Stop> {
    let place = match send(world, client, handler, echo, picture, writer)? {
        Outcome::Sent(place) => place,
        outcome => return Ok(outcome),
    };
    match step(world, &Event::Take(place), None, picture, writer)? {
        Outcome::Sent(reply) => step(world, &Event::Take(reply), None, picture, writer),
        outcome => Ok(outcome),
    }
}

// The client sends the handler the due message, which the echo shows.
fn send<W: Write>(
    world: &mut World<Table>,
    client: ClientId,
    handler: HandlerId,
    echo: Option<Echo<'_>>,
    picture: &mut Picture,
    writer: &mut W,
) -> Result<Outcome, Stop> {
    let event = Event::Tick(client, handler);
    let outcome = world.step(event);
    draw(picture, world, &event, &outcome)?;
    if let Some(echo) = &echo {
        let place = match &outcome {
            Ok(note) => sent_by(note),
            Err(_) => None,
        };
        written(echo.print(subject_at(world, place), writer))?;
    }
    tell(world, &outcome, writer)
}
