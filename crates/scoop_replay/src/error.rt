//! Reasons why a replay stops.

ghost use Rattle.std.specs.Prelude.{◌≡◌};

use scoop_client::ClientError;
use scoop_message::{HandlerId, Message, OutOfMemory};

/// The reason why the replay of an entry or a step fails.
#[derive(Clone, Copy, Debug, PartialEq, Eq)]
pub enum ReplayError {
    /// Memory ran out.
    OutOfMemory,
    /// The node doesn't have this handler.
    NoHandler(HandlerId),
    /// The handler's rules give this reply, and another one was reported.
    Reply(Option<Message>),
    /// An entry of this handler has run, and none had left to be run.
    NothingOut(HandlerId),
    /// The client's rules refuse the command.
    Refused(ClientError),
    /// Nothing is due to the handler at this place, counted from 0.
    NothingDue(usize),
    /// The message has no frame of this version.
    NoFrame,
    /// All incarnations are used.
    Spent,
}

impl From<OutOfMemory> for ReplayError {
    ghost use Rattle.scoop_replay.specs.declared.error.ReplayError.TheVariants as variants;

    ghost from_gives = { λ _ e. e ≡ variants.OutOfMemory };

    fn from(_: OutOfMemory) -> ReplayError {
        ReplayError::OutOfMemory
    }
}
