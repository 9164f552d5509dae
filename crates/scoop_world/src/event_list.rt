//! A list of events in a world, one after another.

ghost use Rattle.scoop_model.specs.Reach.{IsReached};
ghost use Rattle.scoop_model.specs.Safe.{Safe};
ghost use Rattle.scoop_rules.specs.Paper.{FollowsRun};
ghost use Rattle.scoop_world.specs.Answers.{Runs};

use crate::world::World;
use scoop_model::{Event, WorldError};
use scoop_object::Behaviour;
use std::alloc::Allocator;

impl<B: Behaviour, A: Allocator + Copy> World<B, A> {
    // For the prover: some events lead to this world.
    fn is_reached(&self)
        ensures { IsReached self.now }
    {
        let _ = &self.parts;
    }

    /// Takes the events one after another, up to the first that is refused. Returns the number of events taken,
    /// with the refusal if there is one.
    ///
    /// Messages may be lost, repeated or delayed, and clients and nodes may restart at any time. Afterwards every
    /// handler has taken the blocks that opened at it in the order of one common list. Of each block it has run a
    /// beginning of the entries that the block's client logged there, in order, each once, with no other block's
    /// request between. Every answer that a client has accepted is the object's answer after exactly the requests
    /// that ran before it. The events are a run of the written rules of SCOOP, in which a joint reservation is one
    /// step.
    pub fn run(&mut self, events: &[Event]) -> Result<usize, (usize, WorldError)>
        ensures runs { Runs self.old events.now result self.new }
        ensures safe { Safe self.new }
        ensures follows { FollowsRun self.old events.now result self.new }
    {
        self.is_reached();
        for (taken, event) in events.iter().enumerate() {
            match self.step(*event) {
                Ok(_) => {}
                Err(error) => return Err((taken, error)),
            }
        }
        Ok(events.len())
    }
}
