//! Requests for the lock, and its return.

ghost use Rattle.std.specs.Prelude.{◌≡◌};
ghost use Rattle.scoop_handler.specs.Marks.{IsPlaceOf};
ghost use Rattle.scoop_handler.specs.State.{IsState, is_holder, is_unfinished};
ghost use Rattle.scoop_handler.specs.Hearing.{hear_lock, hear_unlock, IsHeardAt};
ghost use Rattle.scoop_handler.specs.Outcomes.{heard_about};

use crate::mark::{Mark, Stage};
use crate::note::{Note, Reason};
use crate::outcome::{Outcome, ReplyKind};
use crate::state::HandlerState;
use scoop_message::Block;
use std::alloc::Allocator;

impl<A: Allocator> HandlerState<A> {
    // The block asks for the lock. `mark` is its client's, at this place.
    pub(super) fn hear_lock(&mut self, block: Block, place: usize, mark: Mark) -> Outcome
        requires heard { IsHeardAt self.old block mark }
        requires place { IsPlaceOf block.client self.old.marks place }
        ensures heard { hear_lock self.old block mark ≡ (self.new, heard_about self.old.number block result) }
    {
        if mark.num < block.num {
            if self.holder.is_none() && !self.is_unfinished(&mark) {
                self.change(Some(block), place, Mark::fresh(block, Stage::Held));
                return Outcome::replied(ReplyKind::Locked, Note::Granted);
            }
            return Outcome::replied(ReplyKind::Busy, Note::Held);
        }
        match mark.stage {
            Stage::Held => Outcome::replied(ReplyKind::Locked, Note::Known),
            Stage::Open | Stage::Shut => Outcome::dropped(Reason::Stale),
        }
    }

    // The block gives the lock back, or is past asking for it. `mark` is its client's, at this place.
    pub(super) fn hear_unlock(&mut self, block: Block, place: usize, mark: Mark) -> Outcome
        requires heard { IsHeardAt self.old block mark }
        requires place { IsPlaceOf block.client self.old.marks place }
        ensures heard { hear_unlock self.old block mark ≡ (self.new, heard_about self.old.number block result) }
    {
        if mark.num < block.num {
            if self.is_unfinished(&mark) {
                return Outcome::dropped(Reason::NotHolder);
            }
            self.change(self.holder, place, Mark::fresh(block, Stage::Shut));
            return Outcome::replied(ReplyKind::Unlocked, Note::Freed);
        }
        if self.holds(block) {
            self.change(None, place, mark.without_hold());
            return Outcome::replied(ReplyKind::Unlocked, Note::Freed);
        }
        Outcome::replied(ReplyKind::Unlocked, Note::Known)
    }

    // Whether the client's newest block holds the lock, or is open and has not ended.
    fn is_unfinished(&self, mark: &Mark) -> bool
        ensures value { result ≡ is_unfinished self.now mark.now }
        ensures state { IsState self.now }
    {
        self.holds(mark.block()) || mark.stage == Stage::Open && !mark.ended
    }

    fn holds(&self, block: Block) -> bool
        ensures value { result ≡ is_holder self.now.holder block }
        ensures state { IsState self.now }
    {
        match self.holder {
            None => false,
            Some(holder) => holder == block,
        }
    }
}
