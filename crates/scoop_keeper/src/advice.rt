//! Advice for a keeper's refusals.

ghost use Rattle.std.specs.Prelude.{◌≡◌};
ghost use Rattle.scoop_keeper.specs.Advice.{memory_advice, keeper_advice};

use crate::keeper::KeeperError;

/// Advice for running out of memory, in a keeper or anywhere else.
pub fn memory_advice() -> &'static str
    ensures { result.now ≡ memory_advice }
{
    "end other programs or give this one more memory; with a store, resume with --store, which has all that was answered"
}

impl KeeperError {
    /// Advice: the cause, if the name doesn't say it, and what to do.
    pub fn advice(self) -> &'static str
        ensures { result.now ≡ keeper_advice self }
    {
        match self {
            KeeperError::OutOfMemory => memory_advice(),
            KeeperError::Refused => {
                "it could not be read or written. Check that the disk has room, and resume with --store, which has all that was \
                answered. Repeat what had no answer"
            }
            KeeperError::BadImage(_) => {
                "its state of this handler was changed or damaged, beyond repair. Start over with new stores for all nodes and \
                clients, and a new key if there is one"
            }
            KeeperError::IncarnationsSpent => {
                "this client has used up its incarnations: take another number"
            }
            KeeperError::WrongSchema => {
                "it belongs to another program or a later version: name the right store"
            }
        }
    }
}
