//! The hearing of a message: the row of the table that fits it.

ghost use Rattle.std.specs.Prelude.{◌≡◌, Ok, Err, IfOk, IfErr, OnOk, OnErr, IsErr, IsTrue};
ghost use Rattle.scoop_message.specs.Message.{handler_of, is_for_handler};
ghost use Rattle.scoop_handler.specs.Marks.{mark_of, IsPlaceOf};
ghost use Rattle.scoop_handler.specs.Hearing.{hear, mark_for, IsHeardAt};
ghost use Rattle.scoop_handler.specs.Memory.{TakesMemory};
ghost use Rattle.scoop_handler.specs.Outcomes.{asked_block, heard_about};
ghost use Rattle.scoop_handler.specs.Replies.{RepliesTo, HasEntries};
ghost use Rattle.scoop_handler.specs.State.{IsState};

use crate::mark::Mark;
use crate::marks::find_placed;
use crate::note::{Heard, Reason};
use crate::outcome::{Outcome, asked_block};
use crate::state::HandlerState;
use scoop_message::{Block, Message, OutOfMemory};
use std::alloc::Allocator;

impl<A: Allocator + Copy> HandlerState<A> {
    /// Changes as the handler's state when it hears this message, and returns what the handler would.
    ///
    /// Only a message for which more is kept than before can return `OutOfMemory`, which changes nothing.
    pub fn hear(&mut self, message: &Message) -> Result<Heard, OutOfMemory>
        ensures ok { IfOk result (λ heard. hear self.old message.now ≡ (self.new, heard)) }
        ensures err { OnErr result (self.new ≡ self.old) }
        ensures memory { IsErr result → TakesMemory self.old message.now }

        // Weaker consequences, for callers that need no more.
        ensures sound { IsState self.new }
        ensures replies { IfOk result (RepliesTo message.now) }
    {
        let number = self.number;
        let outcome = self.take(message)?;
        Ok(outcome.heard(number, asked_block(message)))
    }

    /// Changes as by [`HandlerState::hear`], and returns no reply.
    pub fn follow(&mut self, message: &Message) -> Result<(), OutOfMemory>
        ensures ok { OnOk result (self.new ≡ (hear self.old message.now).0) }
        ensures err { OnErr result (self.new ≡ self.old) }
        ensures memory { IsErr result → TakesMemory self.old message.now }
    {
        self.take(message)?;
        Ok(())
    }

    // Changes as the handler's state when it hears this message. An `Err` changes nothing.
    fn take(&mut self, message: &Message) -> Result<Outcome, OutOfMemory>
        ensures ok { IfOk result (λ outcome. hear self.old message.now ≡ (self.new, heard_about self.old.number (asked_block message.now) outcome)) }
        ensures err { OnErr result (self.new ≡ self.old) }
        ensures memory { IsErr result → TakesMemory self.old message.now }
        ensures sound { IsState self.new }
        ensures replies { IfOk result (λ outcome. RepliesTo message.now (heard_about self.old.number (asked_block message.now) outcome)) }
    {
        let is_here = message.handler() == self.number;
        if !message.for_handler() {
            return Ok(Outcome::dropped(Reason::NotForHandlers));
        }
        if !is_here {
            return Ok(Outcome::dropped(Reason::WrongHandler));
        }
        self.take_here(message)
    }

    // Hears a message to this handler.
    fn take_here(&mut self, message: &Message) -> Result<Outcome, OutOfMemory>
        requires kind { IsTrue (is_for_handler message.now) }
        requires number { handler_of message.now ≡ self.old.number }
        ensures ok { IfOk result (λ outcome. hear self.old message.now ≡ (self.new, heard_about self.old.number (asked_block message.now) outcome)) }
        ensures err { OnErr result (self.new ≡ self.old) }
        ensures memory { IsErr result → TakesMemory self.old message.now }
        ensures entries { HasEntries message.now }
    {
        match message {
            Message::Hello(_, client, inc) => self.hear_hello(*client, *inc),
            Message::Lock(_, block) => Ok(match self.mark_for(*block) {
                Ok((place, mark)) => self.hear_lock(*block, place, mark),
                Err(why) => Outcome::dropped(why),
            }),
            Message::Open(_, block) => match self.mark_for(*block) {
                Ok((place, mark)) => self.hear_open(*block, place, mark),
                Err(why) => Ok(Outcome::dropped(why)),
            },
            Message::Unlock(_, block) => Ok(match self.mark_for(*block) {
                Ok((place, mark)) => self.hear_unlock(*block, place, mark),
                Err(why) => Outcome::dropped(why),
            }),
            Message::Log(_, block, number, entries) => {
                // For the prover: there are entries, and only the last may be an End.
                let _count = entries.len();
                match self.mark_for(*block) {
                    Ok((place, mark)) => {
                        self.hear_log(*block, *number, entries.as_slice(), place, mark)
                    }
                    Err(why) => Ok(Outcome::dropped(why)),
                }
            }
            _ => unreachable!(),
        }
    }

    // The mark for a message of this block, and its place, or why the message is dropped.
    fn mark_for(&self, block: Block) -> Result<(usize, Mark), Reason>
        ensures found { IfOk result (λ found. mark_for block (mark_of block.client self.now.marks) ≡ Ok found.1) }
        ensures dropped { IfErr result (λ why. mark_for block (mark_of block.client self.now.marks) ≡ Err why) }
        ensures place { IfOk result (λ found. IsPlaceOf block.client self.now.marks found.0) }
        ensures heard { IfOk result (λ found. IsHeardAt self.now block found.1) }
    {
        let Some((place, mark)) = find_placed(&self.marks, block.client) else {
            return Err(Reason::Ungreeted);
        };
        if mark.inc < block.inc {
            return Err(Reason::Ungreeted);
        }
        if block.inc < mark.inc || block.num < mark.num {
            return Err(Reason::Stale);
        }
        Ok((place, mark))
    }
}
