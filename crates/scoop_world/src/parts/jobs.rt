//! Jobs: entries that leave a handler to be run, and come back.

ghost use Rattle.scoop_model.specs.World.{site_of};
ghost use Rattle.scoop_model.specs.Step.{begin_at, finish_at};
ghost use Rattle.scoop_model.specs.Reach.{IsReached};
ghost use Rattle.scoop_world.specs.Answers.{Takes};

use crate::parts::{Parts, site_at};
use scoop_message::HandlerId;
use scoop_model::{WorldError, WorldNote};
use scoop_object::Behaviour;
use std::alloc::Allocator;

impl<B: Behaviour, A: Allocator + Copy> Parts<B, A> {
    /// The handler's next entry leaves to be run.
    pub(crate) fn begin(&mut self, handler: HandlerId) -> Result<WorldNote, WorldError>
        requires { IsReached self.old }
        ensures { Takes (begin_at self.old (site_of handler self.old)) result self.old self.new }
    {
        let Some(at) = site_at(&self.sites, handler) else {
            return Err(WorldError::NoSuchParty);
        };
        let site = &mut self.sites[at];
        match site.begin() {
            Some(began) => Ok(WorldNote::Began(began.0, began.1)),
            None => Err(WorldError::NothingToRun),
        }
    }

    /// The entry that left the handler has run.
    pub(crate) fn finish(&mut self, handler: HandlerId) -> Result<WorldNote, WorldError>
        requires { IsReached self.old }
        ensures { Takes (finish_at self.old (site_of handler self.old)) result self.old self.new }
    {
        let Some(at) = site_at(&self.sites, handler) else {
            return Err(WorldError::NoSuchParty);
        };
        let site = &mut self.sites[at];
        let Ok(found) = site.finish(&mut self.keeper) else {
            return Err(WorldError::OutOfMemory);
        };
        match found {
            Some(ran) => Ok(WorldNote::Ran(ran)),
            None => Err(WorldError::NothingToRun),
        }
    }
}
