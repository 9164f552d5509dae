//! Commands of a client.

ghost use Rattle.std.specs.Prelude.{◌≡◌, ◌<◌, Some, length, map, slice_get, IfOk, OnErr, OnOk};
ghost use Rattle.indexmap.specs.IndexMap.{spare};
ghost use Rattle.scoop_model.specs.World.{id_of, party_of};
ghost use Rattle.scoop_model.specs.Step.{do_at, fresh_log};
ghost use Rattle.scoop_model.specs.Reach.{IsReached};
ghost use Rattle.scoop_world.specs.Kept.{logged_kept, logged_by, with_entry_for};
ghost use Rattle.scoop_world.specs.Answers.{Commands, Takes, outcome_of};

use crate::logs::{LoggedAt, Logs, add, fresh_shares, log, make_room, place_of};
use crate::parts::{Parts, party_at};
use crate::party::Party;
use scoop_message::{ClientId, Entry, HandlerId, OutOfMemory};
use scoop_model::{Command, HandlerList, WorldError, WorldNote};
use scoop_object::Behaviour;
use std::alloc::Allocator;

// The client takes a command by which an entry is logged, for one handler or for all.
fn log_by<A: Allocator + Copy>(
    party: &mut Party<A>,
    shares: &mut Vec<LoggedAt<A>, A>,
    command: &Command,
    only: Option<HandlerId>,
    entry: &Entry,
) -> Result<(), WorldError>
    requires { logged_by command.now ≡ Some (only, entry.now) }
    ensures taken { Commands (outcome_of party.old.client command.now) result party.old party.new }
    ensures id { id_of party.new ≡ id_of party.old }
    ensures stored { party.new.stored ≡ party.old.stored }
    ensures logged { OnOk result (map logged_kept shares.new.items ≡ map (with_entry_for only entry.now) (map logged_kept shares.old.items)) }
    ensures kept { OnErr result (map logged_kept shares.new.items ≡ map logged_kept shares.old.items) }
{
    if make_room(shares).is_err() {
        return Err(party.no_room_to_log(only));
    }
    party.command(command)?;
    log(shares, only, entry);
    Ok(())
}

// Room for a new block and its shares.
fn room_for<A: Allocator + Copy>(
    alloc: A,
    logs: &mut Logs<A>,
    handlers: &HandlerList,
) -> Result<Vec<LoggedAt<A>, A>, OutOfMemory>
    ensures shares { IfOk result (λ ls. map logged_kept ls.items ≡ map fresh_log handlers.now) }
    ensures room { OnOk result (0 < spare logs.new) }
    ensures logs { logs.new.entries ≡ logs.old.entries }
{
    logs.reserve(1)?;
    fresh_shares(alloc, handlers.as_slice())
}

impl<B: Behaviour, A: Allocator + Copy> Parts<B, A> {
    /// The client takes the command, and its entries are logged.
    pub(crate) fn command(
        &mut self,
        client: ClientId,
        command: &Command,
    ) -> Result<WorldNote, WorldError>
        requires { IsReached self.old }
        ensures { Takes (do_at self.old command.now (party_of client self.old)) result self.old self.new }
    {
        let Some(at) = party_at(&self.parties, client) else {
            return Err(WorldError::NoSuchParty);
        };
        match *command {
            Command::Reserve(handlers) => self.reserve(at, &handlers),
            Command::Call(handler, request) => {
                self.log(at, command, Some(handler), Entry::Call(request))
            }
            Command::Query(handler, request) => {
                self.log(at, command, Some(handler), Entry::Query(request))
            }
            Command::End => self.log(at, command, None, Entry::End),
            Command::GiveUp => self.give_up(at),
        }
    }

    // The client at this place begins a block.
    fn reserve(&mut self, at: usize, handlers: &HandlerList) -> Result<WorldNote, WorldError>
        requires reached { IsReached self.old }
        requires within { at < length self.old.parties }
        ensures { Takes (do_at self.old (Command.Reserve handlers.now) (slice_get self.old.parties at)) result self.old self.new }
    {
        let alloc = *self.sent.allocator();
        let party = &mut self.parties[at];
        let Ok(shares) = room_for(alloc, &mut self.logs, handlers) else {
            return Err(party.no_room_to_reserve(handlers));
        };
        match party.command(&Command::Reserve(*handlers)) {
            Ok(()) => {}
            Err(error) => return Err(error),
        }
        add(&mut self.logs, party.newest(), shares);
        Ok(WorldNote::Done)
    }

    // The client at this place gives its block up.
    fn give_up(&mut self, at: usize) -> Result<WorldNote, WorldError>
        requires reached { IsReached self.old }
        requires within { at < length self.old.parties }
        ensures { Takes (do_at self.old Command.GiveUp (slice_get self.old.parties at)) result self.old self.new }
    {
        let party = &mut self.parties[at];
        match party.command(&Command::GiveUp) {
            Ok(()) => Ok(WorldNote::Done),
            Err(error) => Err(error),
        }
    }

    // The client at this place logs an entry for one handler or for all, by this command.
    fn log(
        &mut self,
        at: usize,
        command: &Command,
        only: Option<HandlerId>,
        entry: Entry,
    ) -> Result<WorldNote, WorldError>
        requires reached { IsReached self.old }
        requires within { at < length self.old.parties }
        requires logs { logged_by command.now ≡ Some (only, entry) }
        ensures { Takes (do_at self.old command.now (slice_get self.old.parties at)) result self.old self.new }
    {
        let party = &mut self.parties[at];
        let Some(place) = place_of(&self.logs, party.newest()) else {
            return match party.command(command) {
                Ok(()) => Ok(WorldNote::Done),
                Err(error) => Err(error),
            };
        };
        let shares = &mut self.logs[place];
        match log_by(party, shares, command, only, &entry) {
            Ok(()) => Ok(WorldNote::Done),
            Err(error) => Err(error),
        }
    }
}
