//! The rule that chooses the events.

ghost use Rattle.std.specs.Prelude.{◌<◌};

use super::{CLIENTS, HANDLERS};
use scoop_message::{Args, ClientId, HandlerId, Request};
use scoop_world::{Command, Event, HandlerList, WorldNote};

/// Numbers that look random and are the same in each run.
#[derive(Drop)]
pub struct Dice {
    seed: u64,
}

fn list_of(handlers: &[HandlerId]) -> Option<Command> {
    Some(Command::Reserve(HandlerList::of(handlers).ok()?))
}

// The usual event after one that happened: the receiver takes the new message, and the handler goes on.
fn behind(event: Event, note: WorldNote) -> Option<Event> {
    match (event, note) {
        (_, WorldNote::Sent(place)) => Some(Event::Take(place)),
        (_, WorldNote::Handler(_, Some(place))) => Some(Event::Take(place)),
        (Event::Begin(handler), WorldNote::Began(_, _)) => Some(Event::Finish(handler)),
        (Event::Finish(handler), WorldNote::Ran(_)) => Some(Event::Begin(handler)),
        _ => None,
    }
}

impl Dice {
    pub fn new() -> Dice {
        Dice { seed: 1 }
    }

    // The next number below `sides`.
    fn roll(&mut self, sides: u64) -> u64
        requires { 0 < sides }
        ensures { result < sides }
    {
        self.seed = self
            .seed
            .wrapping_mul(6_364_136_223_846_793_005)
            .wrapping_add(1_442_695_040_888_963_407);
        (self.seed >> 33) % sides
    }

    fn handler(&mut self) -> HandlerId {
        HANDLERS[self.roll(3) as usize]
    }

    fn client(&mut self) -> ClientId {
        CLIENTS[self.roll(4) as usize]
    }

    // One of four operations, mostly with an argument.
    fn request(&mut self) -> Option<Request> {
        let op = self.roll(4) as u16 + 1;
        let argument = self.roll(100);
        let args = match self.roll(20) {
            0 => Args::of(&[]),
            _ => Args::of(&[argument]),
        };
        Some(Request {
            op,
            args: args.ok()?,
        })
    }

    // Reserves one handler, two or all; now and then none, one twice, an unknown one or too many.
    fn reserve(&mut self) -> Option<Command> {
        let (first, second) = (self.handler(), self.handler());
        match self.roll(40) {
            0 => list_of(&[]),
            1 => list_of(&[first, first]),
            2 => list_of(&[first, HandlerId(9)]),
            3 => list_of(&[first; 9]),
            4..=19 => list_of(&[first]),
            20..=33 if first != second => list_of(&[first, second]),
            _ => list_of(&HANDLERS),
        }
    }

    fn command(&mut self) -> Option<Command> {
        match self.roll(32) {
            0..=7 => self.reserve(),
            8..=19 => Some(Command::Call(self.handler(), self.request()?)),
            20..=25 => Some(Command::Query(self.handler(), self.request()?)),
            26..=30 => Some(Command::End),
            _ => Some(Command::GiveUp),
        }
    }

    // Any event, now and then one that the world must refuse.
    fn any(&mut self, sent: usize) -> Option<Event> {
        match self.roll(100) {
            0 => Some(Event::ClientRestart(self.client())),
            1 => Some(Event::NodeRestart(self.roll(3) as u32 + 1)),
            2..=5 => Some(Event::Take(self.roll((sent as u64).max(1)) as usize)),
            6..=10 => Some(Event::Take(sent.saturating_sub(self.roll(8) as usize))),
            11 => Some(Event::Take(sent.saturating_add(1))),
            12..=23 => Some(Event::Begin(self.handler())),
            24..=32 => Some(Event::Finish(self.handler())),
            33..=55 => Some(Event::Do(self.client(), self.command()?)),
            _ => Some(Event::Tick(self.client(), self.handler())),
        }
    }

    /// The event of this number, after one that happened if there was one, and this number of sent messages. The last of each five
    /// hundred are a client's calls, which may fill its window.
    pub fn event(
        &mut self,
        number: u32,
        last: Option<(Event, WorldNote)>,
        sent: usize,
    ) -> Option<Event> {
        if number % 500 >= 420 {
            let client = CLIENTS[(number / 500 % 4) as usize];
            let handler = HANDLERS[(number / 500 % 3) as usize];
            return Some(Event::Do(client, Command::Call(handler, self.request()?)));
        }
        if self.roll(4) > 0
            && let Some((event, note)) = last
            && let Some(next) = behind(event, note)
        {
            return Some(next);
        }
        self.any(sent)
    }
}
