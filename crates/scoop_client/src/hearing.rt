//! The effect of messages on a client.

ghost use Rattle.std.specs.Prelude.{◌≡◌, List};
ghost use Rattle.scoop_reserve.specs.Handlers.{without};
ghost use Rattle.scoop_client.specs.Laws.{AcceptsOnce};
ghost use Rattle.scoop_client.specs.Hearing.{heard, hear_welcome, hear_step, hear_logged, hear_answer, settled, up_to};

use crate::client::Client;
use crate::phase::ClientNote;
use crate::windows::{acknowledge_at, all_over, window_of};
use scoop_message::{Answer, Block, HandlerId, Message};
use scoop_reserve::{Step, has};
use std::alloc::Allocator;

// The number up to which a count acknowledges: it stops before a waiting query.
fn up_to(handler: HandlerId, number: u32, waits: Option<(HandlerId, u32)>) -> u32
    ensures { result ≡ up_to handler number waits }
{
    let Some((asked, waited)) = waits else {
        return number;
    };
    if asked == handler && waited <= number {
        waited.saturating_sub(1)
    } else {
        number
    }
}

// Takes one handler out of the list.
fn remove<A: Allocator>(handlers: &mut Vec<HandlerId, A>, handler: HandlerId)
    ensures { handlers.new.items ≡ without handler handlers.old.items }
{
    handlers.retain(|x| *x != handler);
}

impl<A: Allocator> Client<A> {
    /// Hears a message. A message that isn't awaited is `Ignored`; it and `Busy` change nothing.
    pub fn hear(&mut self, message: &Message) -> ClientNote
        ensures value { heard self.old message.now ≡ (self.new, result) }
        ensures once { AcceptsOnce self.old self.new result }
    {
        self.take(message)
    }

    fn take(&mut self, message: &Message) -> ClientNote
        ensures { heard self.old message.now ≡ (self.new, result) }
    {
        match *message {
            Message::Welcome(handler, client, inc) => {
                if client == self.id && inc == self.inc {
                    self.hear_welcome(handler)
                } else {
                    ClientNote::Ignored
                }
            }
            Message::Locked(_, _)
            | Message::Busy(_, _)
            | Message::Opened(_, _)
            | Message::Unlocked(_, _) => self.hear_step(message),
            Message::Logged(handler, block, number) => self.hear_logged(handler, block, number),
            Message::Answer(handler, block, number, answer) => {
                self.hear_answer(handler, block, number, answer)
            }
            _ => ClientNote::Ignored,
        }
    }

    fn hear_welcome(&mut self, handler: HandlerId) -> ClientNote
        ensures { hear_welcome self.old handler ≡ (self.new, result) }
    {
        if !has(&self.unwelcomed, handler) {
            return ClientNote::Ignored;
        }
        remove(&mut self.unwelcomed, handler);
        ClientNote::Welcomed(handler)
    }

    // A reply to a message of the reservation.
    fn hear_step(&mut self, message: &Message) -> ClientNote
        ensures { hear_step self.old message.now self.old.reservation ≡ (self.new, result) }
    {
        let Some(mut reservation) = self.reservation else {
            return ClientNote::Ignored;
        };
        let note = match reservation.hear(message) {
            Step::Locked(handler) => ClientNote::Locked(handler),
            Step::Busy(handler) => ClientNote::Busy(handler),
            Step::Opened(handler) => ClientNote::Opened(handler),
            Step::Unlocked(handler) => ClientNote::Unlocked(handler),
            Step::Ignored => return ClientNote::Ignored,
        };
        // A block that was given up is over once it is unlocked at each handler that was asked.
        if reservation.is_gone() {
            self.leave();
        } else {
            self.reservation = Some(reservation);
        }
        note
    }

    fn hear_logged(&mut self, handler: HandlerId, block: Block, number: u32) -> ClientNote
        ensures { hear_logged self.old handler block number self.old.reservation ≡ (self.new, result) }
    {
        let Some(reservation) = self.reservation else {
            return ClientNote::Ignored;
        };
        if block != reservation.block() || !reservation.is_open() {
            return ClientNote::Ignored;
        }
        let count = up_to(handler, number, self.waits);
        let Some(window) = window_of(&self.windows, handler) else {
            return ClientNote::Ignored;
        };
        if window.logged() < number || count <= window.acked() {
            return ClientNote::Ignored;
        }
        acknowledge_at(&mut self.windows, handler, count);
        self.settle();
        ClientNote::Acknowledged(handler, count)
    }

    fn hear_answer(
        &mut self,
        handler: HandlerId,
        block: Block,
        number: u32,
        answer: Answer,
    ) -> ClientNote
        ensures { hear_answer self.old handler block number answer self.old.reservation ≡ (self.new, result) }
    {
        let Some(reservation) = self.reservation else {
            return ClientNote::Ignored;
        };
        if block != reservation.block() || !reservation.is_open() {
            return ClientNote::Ignored;
        }
        let Some((asked, waited)) = self.waits else {
            return ClientNote::Ignored;
        };
        if asked != handler || waited != number {
            return ClientNote::Ignored;
        }
        acknowledge_at(&mut self.windows, handler, number);
        self.waits = None;
        ClientNote::Accepted(handler, number, answer)
    }

    // Leaves an ended block once each End is acknowledged.
    fn settle(&mut self)
        ensures { self.new ≡ settled self.old }
    {
        if all_over(&self.windows) {
            self.leave();
        }
    }
}
