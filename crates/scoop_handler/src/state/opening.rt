//! Requests for a private queue.

ghost use Rattle.std.specs.Prelude.{◌≡◌, IfOk, OnErr, IsErr, IsTrue, Some};
ghost use Rattle.scoop_handler.specs.Marks.{IsPlaceOf};
ghost use Rattle.scoop_handler.specs.Hearing.{hear_open, IsHeardAt};
ghost use Rattle.scoop_handler.specs.Memory.{adds};
ghost use Rattle.scoop_handler.specs.Outcomes.{heard_about};

use crate::mark::{Mark, Stage};
use crate::note::{Note, Reason};
use crate::outcome::{Outcome, ReplyKind};
use crate::state::HandlerState;
use scoop_message::limits::MAX_QUEUES;
use scoop_message::{Block, OutOfMemory};
use std::alloc::Allocator;

impl<A: Allocator + Copy> HandlerState<A> {
    // The block asks for a private queue. `mark` is its client's, at this place. An `Err` comes only if the block
    // would get one, and changes nothing.
    pub(super) fn hear_open(
        &mut self,
        block: Block,
        place: usize,
        mark: Mark,
    ) -> Result<Outcome, OutOfMemory>
        requires heard { IsHeardAt self.old block mark }
        requires place { IsPlaceOf block.client self.old.marks place }
        ensures ok { IfOk result (λ outcome. hear_open self.old block mark ≡ (self.new, heard_about self.old.number block outcome)) }
        ensures err { OnErr result (self.new ≡ self.old) }
        ensures memory { IsErr result → IsTrue (adds (Some mark) (hear_open self.old block mark).1.note) }
    {
        if mark.num < block.num {
            return Ok(Outcome::dropped(Reason::NotHolder));
        }
        match mark.stage {
            Stage::Open => Ok(Outcome::replied(ReplyKind::Opened, Note::Known)),
            Stage::Shut => Ok(Outcome::dropped(Reason::NotHolder)),
            Stage::Held => {
                if self.queues.list_len() == MAX_QUEUES {
                    return Ok(Outcome::dropped(Reason::QueueFull));
                }
                self.open(block, place, mark)?;
                Ok(Outcome::replied(ReplyKind::Opened, Note::Opened(block)))
            }
        }
    }
}
