//! A sequence chart of the order of a run.

use crate::auditing::Explained;
use crate::error::PartyName;
use crate::remarks::Deed;
use crate::text::InWords;
use indexmap::IndexMap;
use scoop_chart::{Chart, ChartError};
use scoop_client::{ClientNote, Command};
use scoop_handler::Note;
use scoop_message::{ClientId, HandlerId, Message, OutOfMemory};
use scoop_model::{Event, WorldNote};
use scoop_system::System;
use scoop_weaver::Passage;
use std::alloc::Global;
use std::hash::{BuildHasherDefault, FoldHasher};

// The messages that the chart shows, by their numbers: the place of the last time that each was sent, counted from 1.
type Shown = IndexMap<u32, usize, BuildHasherDefault<FoldHasher>>;

// A chart that is drawn move by move.
#[derive(Drop)]
struct Sheet {
    chart: Chart,
    shown: Shown,
    sent: usize,
}

impl Sheet {
    // The message of this number is sent. 0 is none.
    fn send(&mut self, number: u32) -> Result<usize, OutOfMemory> {
        self.sent = self.sent.saturating_add(1);
        self.shown.insert(number, self.sent)?;
        Ok(self.sent)
    }

    // The place at which the message of this number was sent, or 0.
    fn sent_at(&self, number: u32) -> usize {
        self.shown.get(&number).copied().unwrap_or(0)
    }

    fn draw(&mut self, event: &Event, note: WorldNote, label: &str) -> Result<(), ChartError> {
        self.chart.note(event, &Ok(note), label.as_bytes())
    }
}

// The parties' lifelines: the clients, and the handlers node by node.
fn new_chart(alloc: Global, system: &System) -> Result<Chart, ChartError> {
    let mut clients: Vec<ClientId> = Vec::new(alloc);
    for place in system.clients() {
        clients.push(place.client).map_err(OutOfMemory::from)?;
    }
    let mut handlers: Vec<(u32, HandlerId)> = Vec::new(alloc);
    for node in system.nodes() {
        for place in system.handlers() {
            if place.node == node.number {
                let lifeline = (place.node, place.handler);
                handlers.push(lifeline).map_err(OutOfMemory::from)?;
            }
        }
    }
    Chart::new(alloc, &clients, &handlers)
}

// A party hears a message, and a handler may reply.
fn draw_heard(
    alloc: Global,
    sheet: &mut Sheet,
    next: Passage,
    message: &Message,
    reply: &Option<Message>,
) -> Result<(), ChartError> {
    let event = Event::Take(sheet.sent_at(next.heard));
    let mut label = format!(in alloc; "heard {}", InWords(message)).map_err(OutOfMemory::from)?;
    let note = if message.for_handler() {
        let place = match reply {
            Some(reply) => {
                label = format!(in alloc; "{label}: {}", InWords(reply)).map_err(
                    OutOfMemory::from,
                )?;
                Some(sheet.send(next.sent)?)
            }
            None => None,
        };
        WorldNote::Handler(Note::Known, place)
    } else {
        WorldNote::Client(ClientNote::Ignored)
    };
    sheet.draw(&event, note, &label)
}

// A client sends a message.
fn draw_sent(
    alloc: Global,
    sheet: &mut Sheet,
    next: Passage,
    message: &Message,
) -> Result<(), ChartError> {
    let place = sheet.send(next.sent)?;
    let label = format!(in alloc; "sent {}", InWords(message)).map_err(OutOfMemory::from)?;
    let event = Event::Tick(message.client(), message.handler());
    sheet.draw(&event, WorldNote::Sent(place), &label)
}

// The name of a command.
fn name_of(command: &Command) -> &'static str {
    match command {
        Command::Reserve(_) => "reserve",
        Command::Call(..) => "call",
        Command::Query(..) => "query",
        Command::End => "end",
        Command::GiveUp => "give up",
    }
}

// A party does something that hears and sends nothing.
fn draw_deed(
    alloc: Global,
    sheet: &mut Sheet,
    party: PartyName,
    deed: &Deed,
) -> Result<(), ChartError> {
    match (party, deed) {
        (PartyName::Client(client), Deed::Gave(command)) => {
            sheet.draw(
                &Event::Do(client, *command),
                WorldNote::Done,
                name_of(command),
            )
        }
        (PartyName::Client(client), Deed::Restarted(inc)) => {
            let label = format!(in alloc; "restarted {inc}").map_err(OutOfMemory::from)?;
            sheet.draw(
                &Event::ClientRestart(client),
                WorldNote::Restarted(*inc),
                &label,
            )
        }
        (PartyName::Node(node), Deed::Opened) => {
            sheet.draw(&Event::NodeRestart(node), WorldNote::Reopened, "reopened")
        }
        (_, Deed::Ran(handler, block, number)) => {
            let label = format!(in alloc; "ran {block} {number}").map_err(OutOfMemory::from)?;
            sheet.draw(
                &Event::Finish(*handler),
                WorldNote::Began(*block, *number),
                &label,
            )
        }
        _ => Ok(()),
    }
}

// The move at this place of the party at that one.
fn draw_move(
    alloc: Global,
    run: &Explained,
    sheet: &mut Sheet,
    party: usize,
    place: usize,
) -> Result<(), ChartError> {
    let (Some(tale), Some(trail), Some(remarks)) = (
        run.tales().get(party),
        run.trails().get(party),
        run.remarks().get(party),
    ) else {
        return Ok(());
    };
    let Some(next) = trail.get(place) else {
        return Ok(());
    };
    let heard = run.post().message(next.heard);
    let sent = run.post().message(next.sent);
    match (heard, sent) {
        (Some(message), reply) => draw_heard(alloc, sheet, next, &message, &reply),
        (None, Some(message)) => draw_sent(alloc, sheet, next, &message),
        (None, None) => match remarks.deed(place) {
            Some(deed) => draw_deed(alloc, sheet, tale.party(), &deed),
            None => Ok(()),
        },
    }
}

/// A sequence chart of the moves of the order from this one to that one, counted from 1. A move that only looks whether
/// something is due has no row.
///
/// Refused: `TooLong` if they have more rows than a chart shows, and `OutOfMemory`.
pub fn chart_of(
    alloc: Global,
    system: &System,
    run: &Explained,
    from: u64,
    to: u64,
) -> Result<Chart, ChartError> {
    let mut sheet = Sheet {
        chart: new_chart(alloc, system)?,
        shown: IndexMap::new(alloc),
        sent: 0,
    };
    let mut places: Vec<usize> = Vec::new(alloc);
    for _ in run.tales() {
        places.push(0).map_err(OutOfMemory::from)?;
    }
    for (at, turn) in run.order().iter().enumerate() {
        let party = *turn as usize;
        if party < places.len() {
            let number = at as u64;
            if from <= number.saturating_add(1) && number < to {
                draw_move(alloc, run, &mut sheet, party, places[party])?;
            }
            places[party] = places[party].saturating_add(1);
        }
    }
    let Sheet { chart, .. } = sheet;
    Ok(chart)
}
