//! Messages that come to their receivers.

ghost use Rattle.std.specs.Prelude.{◌≡◌, ◌<◌};
ghost use Rattle.indexmap.specs.IndexSet.{spare};
ghost use Rattle.scoop_message.specs.Message.{client_of, handler_of};
ghost use Rattle.scoop_model.specs.World.{party_of, sent_at, site_of};
ghost use Rattle.scoop_model.specs.Step.{joined, newly_opened, taken, taken_by_client, taken_by_handler};
ghost use Rattle.scoop_model.specs.Reach.{IsReached};
ghost use Rattle.scoop_world.specs.Answers.{Takes};

use crate::parts::sending::send;
use crate::parts::{Joint, Parts, party_at, site_at};
use scoop_handler::Note;
use scoop_message::Message;
use scoop_model::{WorldError, WorldNote};
use scoop_object::Behaviour;
use std::alloc::Allocator;

// A block that has opened joins the common list at its first opening. There is room for it.
fn join<A: Allocator + Copy>(joint: &mut Joint<A>, note: Note)
    requires { 0 < spare joint.old }
    ensures { joint.new.keys ≡ joined joint.old.keys (newly_opened note) }
{
    if let Note::Opened(block) = note {
        let Ok(_) = joint.insert(block) else {
            unreachable!()
        };
    }
}

impl<B: Behaviour, A: Allocator + Copy> Parts<B, A> {
    /// The message at this place, counted from 1, comes to its receiver.
    pub(crate) fn take(&mut self, place: usize) -> Result<WorldNote, WorldError>
        requires { IsReached self.old }
        ensures { Takes (taken self.old (sent_at place self.old)) result self.old self.new }
    {
        let Some(message) = self.sent(place).copied() else {
            return Err(WorldError::NoSuchMessage);
        };
        if message.for_handler() {
            self.take_at_handler(&message)
        } else {
            self.take_at_client(&message)
        }
    }

    fn take_at_handler(&mut self, message: &Message) -> Result<WorldNote, WorldError>
        requires { IsReached self.old }
        ensures { Takes (taken_by_handler self.old message.now (site_of (handler_of message.now) self.old)) result self.old self.new }
    {
        let Some(at) = site_at(&self.sites, message.handler()) else {
            return Err(WorldError::NoSuchParty);
        };
        let Ok(()) = self.sent.reserve(1) else {
            return Err(WorldError::OutOfMemory);
        };
        let Ok(()) = self.joint.reserve(1) else {
            return Err(WorldError::OutOfMemory);
        };
        let site = &mut self.sites[at];
        let Ok(heard) = site.hear(&mut self.keeper, message) else {
            return Err(WorldError::OutOfMemory);
        };
        join(&mut self.joint, heard.note);
        let place = send(&mut self.sent, &heard.reply);
        Ok(WorldNote::Handler(heard.note, place))
    }

    fn take_at_client(&mut self, message: &Message) -> Result<WorldNote, WorldError>
        requires { IsReached self.old }
        ensures { Takes (taken_by_client self.old message.now (party_of (client_of message.now) self.old)) result self.old self.new }
    {
        let Some(at) = party_at(&self.parties, message.client()) else {
            return Err(WorldError::NoSuchParty);
        };
        let party = &mut self.parties[at];
        match party.hear(message) {
            Ok(note) => Ok(WorldNote::Client(note)),
            Err(_) => Err(WorldError::OutOfMemory),
        }
    }
}
