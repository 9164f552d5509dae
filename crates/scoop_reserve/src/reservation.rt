//! The reservation itself: the messages that it owes its handlers, and the effect of their replies.

ghost use Rattle.std.specs.Prelude.{◌≡◌, IfOk, IfSome};
ghost use Rattle.scoop_message.specs.Message.{Fits, IsNumbered};
ghost use Rattle.scoop_reserve.specs.Starting.{started};
ghost use Rattle.scoop_reserve.specs.Due.{due};
ghost use Rattle.scoop_reserve.specs.Orders.{KeepsOrder};
ghost use Rattle.scoop_reserve.specs.Hearing.{heard, hear_locked, hear_busy, hear_opened, hear_unlocked, IsGivenUp, is_open, is_gone, is_released};

use crate::error::{ReserveError, TooLate};
use crate::handlers::{first_repeated, first_unknown, has, is_lowest};
use crate::set::HandlerSet;
use crate::stage::{Stage, Step};
use scoop_message::limits::MAX_BLOCK_HANDLERS;
use scoop_message::{Block, HandlerId, Message};
use std::marker::Model;

/// A block's reservation of its handlers.
///
/// Contracts see the block, its handlers as they were named, the stage, and the handlers that are left to do in
/// this stage.
#[derive(Clone, Copy, Debug)]
pub struct Reservation {
    block: Block,
    handlers: HandlerSet,
    stage: Stage,
    left: HandlerSet,
}

impl Model for Reservation {
    ghost use Rattle.scoop_reserve.specs.State.{ReservationState};

    ghost Value = { ReservationState };

    ghost view = { λ r. record { block = r.block; handlers = r.handlers; stage = r.stage; left = r.left } };

    ghost inverse = { λ r. record { block = r.block; handlers = r.handlers; stage = r.stage; left = r.left } };
}

impl Reservation {
    /// Starts a reservation of these handlers, with none of them locked yet. Refused, in this order, with `Empty`
    /// if there are none, `TooMany` if there are more than eight, `Repeated`, and `Unknown` if one isn't among the
    /// known ones.
    pub fn start(
        block: Block,
        handlers: &[HandlerId],
        known: &[HandlerId],
    ) -> Result<Reservation, ReserveError>
        ensures value { result ≡ started block handlers.now known.now }

        // whatever it hears, it opens nothing before all are locked
        ensures order { IfOk result KeepsOrder }
    {
        if handlers.is_empty() {
            return Err(ReserveError::Empty);
        }
        if handlers.len() > MAX_BLOCK_HANDLERS {
            return Err(ReserveError::TooMany);
        }
        if let Some(handler) = first_repeated(handlers) {
            return Err(ReserveError::Repeated(handler));
        }
        if let Some(handler) = first_unknown(known, handlers) {
            return Err(ReserveError::Unknown(handler));
        }
        let handlers = HandlerSet::of(handlers);
        Ok(Reservation {
            block,
            handlers,
            stage: Stage::Locking,
            left: handlers,
        })
    }

    /// The block that reserves.
    pub fn block(&self) -> Block
        ensures { result ≡ self.now.block }
    {
        self.block
    }

    /// The block's handlers, as they were named.
    pub fn handlers(&self) -> &[HandlerId]
        ensures { result.now ≡ self.now.handlers }
    {
        self.handlers.as_slice()
    }

    /// The handlers that are left to do in this stage.
    pub fn left(&self) -> &[HandlerId]
        ensures { result.now ≡ self.now.left }
    {
        self.left.as_slice()
    }

    /// The stage of the reservation.
    pub fn stage(&self) -> Stage
        ensures { result ≡ self.now.stage }
    {
        self.stage
    }

    /// The one message owed to this handler now.
    pub fn due(&self, handler: HandlerId) -> Option<Message>
        ensures value { result ≡ due self.now handler }
        ensures fits { IsNumbered self.now.block → IfSome result Fits }
    {
        let left = self.left.as_slice();
        match self.stage {
            Stage::Locking if is_lowest(handler, left) => {
                Some(Message::Lock(handler, self.block))
            }
            Stage::Opening if has(left, handler) => Some(Message::Open(handler, self.block)),
            Stage::Unlocking | Stage::GivingUp if has(left, handler) => {
                Some(Message::Unlock(handler, self.block))
            }
            _ => None,
        }
    }

    /// Hears a message. A message that isn't awaited is `Ignored`; it and `Busy` change nothing.
    pub fn hear(&mut self, message: &Message) -> Step
        ensures value { heard self.old message.now ≡ (self.new, result) }
        ensures block { self.new.block ≡ self.old.block }
    {
        match *message {
            Message::Locked(handler, block) if block == self.block => self.hear_locked(handler),
            Message::Busy(handler, block) if block == self.block => self.hear_busy(handler),
            Message::Opened(handler, block) if block == self.block => self.hear_opened(handler),
            Message::Unlocked(handler, block) if block == self.block => {
                self.hear_unlocked(handler)
            }
            _ => Step::Ignored,
        }
    }

    fn hear_locked(&mut self, handler: HandlerId) -> Step
        ensures { hear_locked self.old handler self.old.stage ≡ (self.new, result) }
    {
        if self.stage != Stage::Locking || !is_lowest(handler, self.left.as_slice()) {
            return Step::Ignored;
        }
        self.left = self.left.without(handler);
        if self.left.is_empty() {
            self.stage = Stage::Opening;
            self.left = self.handlers;
        }
        Step::Locked(handler)
    }

    fn hear_busy(&self, handler: HandlerId) -> Step
        ensures { hear_busy self.now handler self.now.stage ≡ (self.now, result) }
    {
        if self.stage == Stage::Locking && is_lowest(handler, self.left.as_slice()) {
            Step::Busy(handler)
        } else {
            Step::Ignored
        }
    }

    fn hear_opened(&mut self, handler: HandlerId) -> Step
        ensures { hear_opened self.old handler self.old.stage ≡ (self.new, result) }
    {
        if self.stage != Stage::Opening || !has(self.left.as_slice(), handler) {
            return Step::Ignored;
        }
        self.left = self.left.without(handler);
        if self.left.is_empty() {
            self.stage = Stage::Unlocking;
            self.left = self.handlers;
        }
        Step::Opened(handler)
    }

    fn hear_unlocked(&mut self, handler: HandlerId) -> Step
        ensures { hear_unlocked self.old handler self.old.stage ≡ (self.new, result) }
    {
        let unlocks = self.stage == Stage::Unlocking || self.stage == Stage::GivingUp;
        if !unlocks || !has(self.left.as_slice(), handler) {
            return Step::Ignored;
        }
        self.left = self.left.without(handler);
        Step::Unlocked(handler)
    }

    /// Gives the reservation up: from now on an Unlock is due to each handler that it asked for a lock. Refused
    /// with `TooLate` once all handlers are locked or it was given up.
    pub fn give_up(&mut self) -> Result<(), TooLate>
        ensures { IsGivenUp self.old self.new result }
    {
        if self.stage != Stage::Locking {
            return Err(TooLate);
        }
        self.stage = Stage::GivingUp;
        self.left = self.handlers.asked(&self.left);
        Ok(())
    }

    /// Whether it is opened at all handlers.
    pub fn is_open(&self) -> bool
        ensures { result ≡ is_open self.now }
    {
        self.stage == Stage::Unlocking
    }

    /// Whether the handler is one of the block's and needs no Unlock any more.
    pub fn is_released(&self, handler: HandlerId) -> bool
        ensures { result ≡ is_released self.now handler }
    {
        let unlocks = self.stage == Stage::Unlocking || self.stage == Stage::GivingUp;
        has(self.handlers.as_slice(), handler) && unlocks && !has(self.left.as_slice(), handler)
    }

    /// Whether it was given up and is unlocked at each handler that it asked for a lock.
    pub fn is_gone(&self) -> bool
        ensures { result ≡ is_gone self.now }
    {
        self.stage == Stage::GivingUp && self.left.is_empty()
    }
}
