//! Messages that a client sends.

ghost use Rattle.std.specs.Prelude.{◌≡◌, ◌<◌, ◌+◌, ◌++◌, length, option_to_list, vec_len, vec_capacity};
ghost use Rattle.std.specs.Option.{option_map};
ghost use Rattle.scoop_model.specs.World.{party_of, site_of};
ghost use Rattle.scoop_model.specs.Step.{tick_at};
ghost use Rattle.scoop_world.specs.Answers.{Takes};

use crate::parts::{Parts, party_at, site_at};
use scoop_message::{ClientId, Entry, HandlerId, Message, Request};
use scoop_model::{WorldError, WorldNote};
use scoop_object::Behaviour;
use std::alloc::Allocator;

/// Appends a message, if there is one, and returns its place, counted from 1. There is room for it.
pub(super) fn send<A: Allocator + Copy>(
    sent: &mut Vec<Message, A>,
    message: &Option<Message>,
) -> Option<usize>
    requires { vec_len sent.old < vec_capacity sent.old }
    ensures sent { sent.new.items ≡ sent.old.items ++ option_to_list message.now }
    ensures place { result ≡ option_map (λ _. length sent.old.items + 1) message.now }
{
    // For the prover: names the types that a message holds.
    let _parts: Option<(Entry, Request)> = None;
    match message {
        Some(message) => {
            sent.push_reserved(*message);
            Some(sent.len())
        }
        None => None,
    }
}

impl<B: Behaviour, A: Allocator + Copy> Parts<B, A> {
    /// The client sends the handler the message owed to it, if any.
    pub(crate) fn tick(
        &mut self,
        client: ClientId,
        handler: HandlerId,
    ) -> Result<WorldNote, WorldError>
        ensures { Takes (tick_at self.old handler (party_of client self.old) (site_of handler self.old)) result self.old self.new }
    {
        let Some(at) = party_at(&self.parties, client) else {
            return Err(WorldError::NoSuchParty);
        };
        let Some(_) = site_at(&self.sites, handler) else {
            return Err(WorldError::NoSuchParty);
        };
        let Ok(()) = self.sent.reserve(1) else {
            return Err(WorldError::OutOfMemory);
        };
        let party = &self.parties[at];
        let due = party.due(handler);
        match send(&mut self.sent, &due) {
            Some(place) => Ok(WorldNote::Sent(place)),
            None => Ok(WorldNote::Silent),
        }
    }
}
