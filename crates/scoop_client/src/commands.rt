//! A client's commands.

ghost use Rattle.std.specs.Prelude.{◌≡◌, ◌+◌, ◌<◌, ◌^◌, IfOk, IfErr, IfSome, OnOk, Ok, Err, None, false};
ghost use Rattle.scoop_message.specs.declared.request.Entry.{Entry as LoggedEntry};
ghost use Rattle.scoop_client.specs.Commands.{Commanded, CommandedAlways, AnswersAlways, Foretells, IsReserve, Reserve, DoCall, DoQuery, DoEnd, GiveUp};
ghost use Rattle.scoop_client.specs.Commands.{command, command as outcome_of, log, waits_for, with_block, with_ends, with_logged};
ghost use Rattle.scoop_client.specs.Window.{HasRoom, is_ended, window_of, lowest_full};
ghost use Rattle.scoop_client.specs.State.{phase_of};

use crate::client::Client;
use crate::command::Command;
use crate::error::ClientError;
use crate::phase::Phase;
use crate::windows::{end_all, fresh_windows, log_at, lowest_full, window_of};
use scoop_message::{Block, Entry, HandlerId, Request};
use scoop_reserve::Reservation;
use std::alloc::Allocator;

// The query that waits once this entry is logged, by handler and number.
fn waits_for(handler: HandlerId, number: u32, entry: &Entry) -> Option<(HandlerId, u32)>
    ensures { result ≡ waits_for handler number entry.now }
{
    match entry {
        Entry::Query(_) => Some((handler, number)),
        Entry::Call(_) | Entry::End => None,
    }
}

impl<A: Allocator + Clone> Client<A> {
    /// Begins a block over these handlers: locks them, then opens them, then runs. It takes the memory of a whole
    /// window for each handler. Refused, in this order, with `NotGreeted`, `NotIdle`, `Spent` if the last block
    /// number is used, `Reserve` and `OutOfMemory`.
    pub fn reserve(&mut self, handlers: &[HandlerId]) -> Result<(), ClientError>
        ensures { Commanded (Reserve handlers.now) result self.old self.new }
    {
        let reservation = self.next_reservation(handlers)?;
        let windows = fresh_windows(self.handlers.allocator(), handlers).map_err(
            |_| ClientError::OutOfMemory,
        )?;
        self.last += 1;
        self.reservation = Some(reservation);
        self.windows = windows;
        self.waits = None;
        Ok(())
    }
}

impl<A: Allocator> Client<A> {
    // The reservation of the next block, or the reason why none may begin over these handlers.
    fn next_reservation(&self, handlers: &[HandlerId]) -> Result<Reservation, ClientError>
        ensures begins { IfOk result (λ r. command self.now (Reserve handlers.now) ≡ Ok (with_block self.now handlers.now r)) }
        ensures number { IfOk result (λ _. self.now.last + 1 < 2 ^ 32) }
        ensures refused { IfErr result (λ e. command self.now (Reserve handlers.now) ≡ Err e) }
    {
        match self.phase() {
            Phase::Greeting => return Err(ClientError::NotGreeted),
            Phase::Idle => {}
            _ => return Err(ClientError::NotIdle),
        }
        if self.last == u32::MAX {
            return Err(ClientError::Spent);
        }
        let block = Block {
            client: self.id,
            inc: self.inc,
            num: self.last + 1,
        };
        match Reservation::start(block, handlers, &self.handlers) {
            Ok(reservation) => Ok(reservation),
            Err(error) => Err(ClientError::Reserve(error)),
        }
    }

    /// Whether `reserve` would begin a block over these handlers now, memory apart. Takes no memory.
    pub fn may_reserve(&self, handlers: &[HandlerId]) -> Result<(), ClientError>
        ensures { Foretells (command self.now (Reserve handlers.now)) result }
    {
        match self.next_reservation(handlers) {
            Ok(_) => Ok(()),
            Err(error) => Err(error),
        }
    }

    // The number of the last entry logged at a handler, or the reason why none may be logged there.
    fn last_logged(&self, handler: HandlerId) -> Result<u32, ClientError>
        ensures logs { (entry : LoggedEntry) → IfOk result (λ last.
            log self.now handler entry (phase_of self.now) ≡ Ok (with_logged self.now handler entry (last + 1))) }
        ensures number { IfOk result (λ last. last + 1 < 2 ^ 32) }
        ensures room { OnOk result (IfSome (window_of handler self.now.windows) HasRoom) }
        ensures refused { (entry : LoggedEntry) → IfErr result (λ e. log self.now handler entry (phase_of self.now) ≡ Err e) }
    {
        match self.phase() {
            Phase::Greeting => return Err(ClientError::NotGreeted),
            Phase::Running => {}
            _ => return Err(ClientError::NoBlock),
        }
        if let Some((asked, _)) = self.waits {
            return Err(ClientError::Waiting(asked));
        }
        let Some(window) = window_of(&self.windows, handler) else {
            return Err(ClientError::NotReserved(handler));
        };
        if window.is_full() {
            return Err(ClientError::WindowFull(handler));
        }
        let last = window.logged();
        if last >= u32::MAX - 1 {
            return Err(ClientError::Spent);
        }
        Ok(last)
    }

    /// Whether `call` and `query` would log an entry at a handler now.
    pub fn may_log(&self, handler: HandlerId) -> Result<(), ClientError>
        ensures { (entry : LoggedEntry) → Foretells (log self.now handler entry (phase_of self.now)) result }
    {
        match self.last_logged(handler) {
            Ok(_) => Ok(()),
            Err(error) => Err(error),
        }
    }

    /// Logs a call at a handler. Refused, in this order, with `NotGreeted`, `NoBlock` unless the client is
    /// running, `Waiting`, `NotReserved`, `WindowFull` and `Spent`. `reserve` took its memory.
    pub fn call(&mut self, handler: HandlerId, request: Request) -> Result<(), ClientError>
        ensures { CommandedAlways (DoCall handler request) result self.old self.new }
    {
        self.log(handler, Entry::Call(request))
    }

    /// Logs a query at a handler; the client then waits for the answer. Refused as `call` is.
    pub fn query(&mut self, handler: HandlerId, request: Request) -> Result<(), ClientError>
        ensures { CommandedAlways (DoQuery handler request) result self.old self.new }
    {
        self.log(handler, Entry::Query(request))
    }

    fn log(&mut self, handler: HandlerId, entry: Entry) -> Result<(), ClientError>
        ensures { AnswersAlways (log self.old handler entry (phase_of self.old)) result self.old self.new }
    {
        let last = self.last_logged(handler)?;
        log_at(&mut self.windows, handler, entry);
        self.waits = waits_for(handler, last + 1, &entry);
        Ok(())
    }

    /// Ends the block: logs an End at each of its handlers. Refused, in this order, with `NotGreeted`, `NoBlock`
    /// unless the client is running, `Waiting`, and `WindowFull` for the lowest such handler. `reserve` took its
    /// memory.
    pub fn end(&mut self) -> Result<(), ClientError>
        ensures { CommandedAlways DoEnd result self.old self.new }
    {
        self.may_end()?;
        end_all(&mut self.windows);
        Ok(())
    }

    /// Whether `end` would end the block now.
    pub fn may_end(&self) -> Result<(), ClientError>
        ensures told { Foretells (command self.now DoEnd) result }
        ensures ends { OnOk result (command self.now DoEnd ≡ Ok (with_ends self.now)) }
        ensures room { OnOk result (lowest_full self.now.windows ≡ None) }
        ensures goes_on { OnOk result (is_ended self.now.windows ≡ false) }
    {
        match self.phase() {
            Phase::Greeting => return Err(ClientError::NotGreeted),
            Phase::Running => {}
            _ => return Err(ClientError::NoBlock),
        }
        if let Some((asked, _)) = self.waits {
            return Err(ClientError::Waiting(asked));
        }
        if let Some(handler) = lowest_full(&self.windows) {
            return Err(ClientError::WindowFull(handler));
        }
        Ok(())
    }

    /// Gives up a block whose handlers aren't all locked yet. Refused, in this order, with `NotGreeted`, `NoBlock`
    /// if the client is idle, and `TooLate`.
    pub fn give_up(&mut self) -> Result<(), ClientError>
        ensures { CommandedAlways GiveUp result self.old self.new }
    {
        match self.phase() {
            Phase::Greeting => return Err(ClientError::NotGreeted),
            Phase::Idle => return Err(ClientError::NoBlock),
            _ => {}
        }
        let Some(mut reservation) = self.reservation else {
            return Err(ClientError::NoBlock);
        };
        if reservation.give_up().is_err() {
            return Err(ClientError::TooLate);
        }
        self.reservation = Some(reservation);
        Ok(())
    }

    /// Whether `give_up` would give up the block now.
    pub fn may_give_up(&self) -> Result<(), ClientError>
        ensures { Foretells (command self.now GiveUp) result }
    {
        match self.phase() {
            Phase::Greeting => Err(ClientError::NotGreeted),
            Phase::Idle => Err(ClientError::NoBlock),
            Phase::Locking => Ok(()),
            Phase::Opening | Phase::Running | Phase::Ending | Phase::GivingUp => {
                Err(ClientError::TooLate)
            }
        }
    }

    /// Whether `carry_out` would take the command now, memory apart. Takes no memory.
    pub fn may_carry_out(&self, command: &Command) -> Result<(), ClientError>
        ensures { Foretells (outcome_of self.now command.now) result }
    {
        match command {
            Command::Reserve(handlers) => self.may_reserve(handlers.as_slice()),
            Command::Call(handler, _) => self.may_log(*handler),
            Command::Query(handler, _) => self.may_log(*handler),
            Command::End => self.may_end(),
            Command::GiveUp => self.may_give_up(),
        }
    }
}

impl<A: Allocator + Clone> Client<A> {
    /// Takes a command: `reserve`, `call`, `query`, `end` or `give_up`, refused as that call is.
    pub fn carry_out(&mut self, command: &Command) -> Result<(), ClientError>
        ensures takes { Commanded command.now result self.old self.new }
        ensures memory { result ≡ Err ClientError.OutOfMemory → IsReserve command.now }
    {
        match *command {
            Command::Reserve(handlers) => self.reserve(handlers.as_slice()),
            Command::Call(handler, request) => self.call(handler, request),
            Command::Query(handler, request) => self.query(handler, request),
            Command::End => self.end(),
            Command::GiveUp => self.give_up(),
        }
    }
}
