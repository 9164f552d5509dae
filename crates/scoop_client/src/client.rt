//! A client.

ghost use Rattle.std.specs.Prelude.{◌≡◌, ◌≤◌, IfSome};
ghost use Rattle.scoop_message.specs.Message.{Fits};
ghost use Rattle.scoop_client.specs.State.{phase_of, block_of, idle};
ghost use Rattle.scoop_client.specs.Due.{due, due_in_block};
ghost use Rattle.scoop_client.specs.Laws.{DueInOrder};
ghost use Rattle.scoop_client.specs.Beginning.{begun, Begins};

use crate::error::BeginError;
use crate::phase::Phase;
use crate::window::Window;
use crate::windows::{is_ended, window_of};
use scoop_message::limits::{MAX_ENTRIES, MAX_HANDLERS};
use scoop_message::{Block, ClientId, HandlerId, Message};
use scoop_reserve::{Reservation, Stage, first_repeated, has};
use std::alloc::{Allocator, Global};
use std::marker::Model;

/// A client, which has one block at a time.
///
/// Contracts see its identity and limits, its handlers and those that haven't welcomed it, and the last block
/// number used. Of its block they see the reservation, the windows and the waiting query.
#[derive(Drop)]
pub struct Client<A: Allocator = Global> {
    pub(crate) id: ClientId,
    pub(crate) inc: u32,
    batch: u8,
    pub(crate) handlers: Vec<HandlerId, A>,
    pub(crate) unwelcomed: Vec<HandlerId, A>,
    pub(crate) last: u32,
    pub(crate) reservation: Option<Reservation>,
    pub(crate) windows: Vec<Window<A>, A>,
    pub(crate) waits: Option<(HandlerId, u32)>,
}

impl<A: Allocator> Model for Client<A> {
    ghost use Rattle.scoop_client.specs.State.{ClientState, IsClient};

    ghost Value = { ClientState };

    ghost view = { λ c. record {
      id = c.id;
      inc = c.inc;
      batch = c.batch;
      handlers = c.handlers.items;
      unwelcomed = c.unwelcomed.items;
      last = c.last;
      reservation = c.reservation;
      windows = c.windows.items;
      waits = c.waits;
    } };

    ghost invariant = { λ c. IsClient c.id c.inc c.batch c.last c.reservation };
}

impl<A: Allocator> Client<A> {
    /// The most entries that one Log carries: 1 to 4.
    pub fn batch(&self) -> u8
        ensures value { result ≡ self.now.batch }
        ensures some { 1 ≤ self.now.batch }
        ensures limit { self.now.batch ≤ MAX_ENTRIES }
    {
        self.batch
    }

    /// The client's incarnation, from 1 on.
    pub fn inc(&self) -> u32
        ensures { result ≡ self.now.inc }
    {
        self.inc
    }

    /// The handlers with which the client began, in their order.
    pub fn handlers(&self) -> &[HandlerId]
        ensures { result.now ≡ self.now.handlers }
    {
        &self.handlers
    }

    /// The handlers that haven't welcomed the client, in their order.
    pub fn unwelcomed(&self) -> &[HandlerId]
        ensures { result.now ≡ self.now.unwelcomed }
    {
        &self.unwelcomed
    }

    /// The client's phase.
    pub fn phase(&self) -> Phase
        ensures { result ≡ phase_of self.now }
    {
        if !self.unwelcomed.is_empty() {
            return Phase::Greeting;
        }
        let Some(reservation) = self.reservation else {
            return Phase::Idle;
        };
        match reservation.stage() {
            Stage::Locking => Phase::Locking,
            Stage::Opening => Phase::Opening,
            Stage::Unlocking => {
                if is_ended(&self.windows) {
                    Phase::Ending
                } else {
                    Phase::Running
                }
            }
            Stage::GivingUp => Phase::GivingUp,
        }
    }

    /// The client's block.
    pub fn block(&self) -> Option<Block>
        ensures { result ≡ block_of self.now.reservation }
    {
        match self.reservation {
            Some(reservation) => Some(reservation.block()),
            None => None,
        }
    }

    /// The reservation of the client's block.
    pub fn reservation(&self) -> Option<Reservation>
        ensures { result ≡ self.now.reservation }
    {
        self.reservation
    }

    /// The windows of the client's block: one for each handler that it reserved.
    pub fn windows(&self) -> &[Window<A>]
        ensures { result.now ≡ self.now.windows }
    {
        &self.windows
    }

    /// The block's query that waits for its answer: its handler and number.
    pub fn waits(&self) -> Option<(HandlerId, u32)>
        ensures { result ≡ self.now.waits }
    {
        self.waits
    }

    /// The one message owed to this handler now.
    pub fn due(&self, handler: HandlerId) -> Option<Message>
        ensures value { result ≡ due self.now handler }
        ensures fits { IfSome result Fits }

        // an entry only once the handler is unlocked, and at its number
        ensures order { IfSome result (DueInOrder self.now handler) }
    {
        if has(&self.unwelcomed, handler) {
            Some(Message::Hello(handler, self.id, self.inc))
        } else {
            self.due_in_block(handler)
        }
    }

    // The message that is due to a handler that has welcomed the client.
    fn due_in_block(&self, handler: HandlerId) -> Option<Message>
        ensures value { result ≡ due_in_block self.now handler self.now.reservation }
        ensures fits { IfSome result Fits }
    {
        let Some(reservation) = self.reservation else {
            return None;
        };
        if let Some(message) = reservation.due(handler) {
            return Some(message);
        }
        if !reservation.is_open() {
            return None;
        }
        match window_of(&self.windows, handler) {
            Some(window) => window.due(reservation.block(), self.batch),
            None => None,
        }
    }

    // Leaves the block, which is over.
    pub(crate) fn leave(&mut self)
        ensures { self.new ≡ idle self.old }
    {
        self.reservation = None;
        self.windows.clear();
        self.waits = None;
    }
}

impl<A: Allocator + Clone> Client<A> {
    fn begin_with(
        alloc: A,
        id: ClientId,
        inc: u32,
        handlers: &[HandlerId],
        last: u32,
        batch: u8,
    ) -> Result<Client<A>, BeginError>
        requires inc { 1 ≤ inc }
        requires some { 1 ≤ batch }
        requires limit { batch ≤ MAX_ENTRIES }
        ensures { Begins (begun id inc handlers.now last batch) result }
    {
        if handlers.is_empty() {
            return Err(BeginError::NoHandlers);
        }
        if handlers.len() > MAX_HANDLERS {
            return Err(BeginError::TooManyHandlers);
        }
        if let Some(handler) = first_repeated(handlers) {
            return Err(BeginError::Repeated(handler));
        }
        let known = Vec::from_slice(alloc.clone()?, handlers)?;
        let unwelcomed = Vec::from_slice(alloc.clone()?, handlers)?;
        Ok(Client {
            id,
            inc,
            batch,
            handlers: known,
            unwelcomed,
            last,
            reservation: None,
            windows: Vec::new(alloc),
            waits: None,
        })
    }

    /// Makes a client that has to greet these handlers, with no block number used. One Log carries one entry. The
    /// incarnation is at least 1. Refused, in this order, with `NoHandlers`, `TooManyHandlers` above
    /// `MAX_HANDLERS`, `Repeated` and `OutOfMemory`.
    pub fn begin(
        alloc: A,
        id: ClientId,
        inc: u32,
        handlers: &[HandlerId],
    ) -> Result<Client<A>, BeginError>
        requires { 1 ≤ inc }
        ensures { Begins (begun id inc handlers.now 0 1) result }
    {
        Client::begin_with(alloc, id, inc, handlers, 0, 1)
    }

    /// The same, with the last block number used.
    pub fn begin_at(
        alloc: A,
        id: ClientId,
        inc: u32,
        handlers: &[HandlerId],
        last: u32,
    ) -> Result<Client<A>, BeginError>
        requires { 1 ≤ inc }
        ensures { Begins (begun id inc handlers.now last 1) result }
    {
        Client::begin_with(alloc, id, inc, handlers, last, 1)
    }

    /// The same as `begin`, with Logs of up to `batch` entries, 1 to 4.
    pub fn begin_batched(
        alloc: A,
        id: ClientId,
        inc: u32,
        handlers: &[HandlerId],
        batch: u8,
    ) -> Result<Client<A>, BeginError>
        requires inc { 1 ≤ inc }
        requires some { 1 ≤ batch }
        requires limit { batch ≤ MAX_ENTRIES }
        ensures { Begins (begun id inc handlers.now 0 batch) result }
    {
        Client::begin_with(alloc, id, inc, handlers, 0, batch)
    }
}
