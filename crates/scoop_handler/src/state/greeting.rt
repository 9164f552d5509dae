//! Greetings of clients.

ghost use Rattle.std.specs.Prelude.{◌≡◌, IfOk, OnErr, IsErr, IsTrue};
ghost use Rattle.scoop_handler.specs.Marks.{mark_of};
ghost use Rattle.scoop_handler.specs.Hearing.{greeting_block, hear_hello};
ghost use Rattle.scoop_handler.specs.Memory.{adds};
ghost use Rattle.scoop_handler.specs.Outcomes.{heard_about};

use crate::marks::find_placed;
use crate::note::{Note, Reason};
use crate::outcome::{Outcome, ReplyKind};
use crate::state::HandlerState;
use crate::state::changing::greeting;
use scoop_message::limits::MAX_MARKS;
use scoop_message::{ClientId, OutOfMemory};
use std::alloc::Allocator;

impl<A: Allocator> HandlerState<A> {
    // A client greets. Only its first greeting can return an `Err`, which changes nothing.
    pub(super) fn hear_hello(&mut self, client: ClientId, inc: u32) -> Result<Outcome, OutOfMemory>
        ensures ok { IfOk result
            (λ outcome. hear_hello self.old client inc (mark_of client self.old.marks)
            ≡ (self.new, heard_about self.old.number (greeting_block client inc) outcome)) }
        ensures err { OnErr result (self.new ≡ self.old) }
        ensures memory { IsErr result →
            IsTrue (adds (mark_of client self.old.marks) (hear_hello self.old client inc (mark_of client self.old.marks)).1.note) }
    {
        let Some((place, mark)) = find_placed(&self.marks, client) else {
            if self.marks.len() == MAX_MARKS {
                return Ok(Outcome::dropped(Reason::TooManyClients));
            }
            self.add(greeting(client, inc))?;
            return Ok(Outcome::replied(ReplyKind::Welcome, Note::Greeted));
        };
        if mark.inc < inc {
            self.renew(client, inc, place, mark);
            return Ok(Outcome::replied(ReplyKind::Welcome, Note::Greeted));
        }
        if mark.inc == inc {
            return Ok(Outcome::replied(ReplyKind::Welcome, Note::Known));
        }
        Ok(Outcome::dropped(Reason::Stale))
    }
}
