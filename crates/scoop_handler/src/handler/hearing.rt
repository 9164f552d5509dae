//! The hearing of a message.

ghost use Rattle.std.specs.Prelude.{◌≡◌, IfOk, OnErr, IsErr};
ghost use Rattle.scoop_handler.specs.Core.{IsCore, with_state};
ghost use Rattle.scoop_handler.specs.Growing.{MarksGrow};
ghost use Rattle.scoop_handler.specs.Hearing.{hear};
ghost use Rattle.scoop_handler.specs.Memory.{TakesMemory};
ghost use Rattle.scoop_handler.specs.Locking.{ConfirmsOnlyHolder, HolderMoves, DroppedChangesNothing};
ghost use Rattle.scoop_handler.specs.Replies.{RepliesTo};

use crate::handler::Handler;
use crate::note::Heard;
use scoop_message::{Message, OutOfMemory};
use scoop_object::Behaviour;
use std::alloc::Allocator;

impl<B: Behaviour, A: Allocator + Copy> Handler<B, A> {
    /// Hears one message.
    ///
    /// Only a message for which the handler keeps more than before can return `OutOfMemory`, which changes
    /// nothing.
    pub fn hear(&mut self, message: &Message) -> Result<Heard, OutOfMemory>
        ensures ok { IfOk result (λ heard. hear self.old.state message.now ≡ (self.new.state, heard)) }
        ensures stays { self.new ≡ with_state self.new.state self.old }
        ensures err { OnErr result (self.new ≡ self.old) }
        ensures memory { IsErr result → TakesMemory self.old.state message.now }

        // Weaker consequences, for callers that need no more.
        ensures sound { IsCore self.new }
        ensures confirms { IfOk result (ConfirmsOnlyHolder self.new.state) }
        ensures holder { HolderMoves self.old.state.holder message.now self.new.state.holder }
        ensures drops { IfOk result (DroppedChangesNothing self.old.state self.new.state) }
        ensures replies { IfOk result (RepliesTo message.now) }
        ensures grows { MarksGrow self.old.state.marks self.new.state.marks }
        ensures words { self.new.state.words ≡ self.old.state.words }
    {
        self.state.hear(message)
    }
}
