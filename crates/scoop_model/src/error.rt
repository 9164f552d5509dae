//! The reasons why an event is refused.

ghost use Rattle.std.specs.Prelude.{◌≡◌};

use scoop_client::ClientError;
use scoop_message::OutOfMemory;
use std::alloc::AllocError;
use thiserror::Error;

/// The reason why an event is refused, in the order of the tests. A refused event changes nothing. It is printed as
/// its name; a client's refusal is printed as the client's error.
#[derive(Clone, Copy, Debug, PartialEq, Eq, Error)]
pub enum WorldError {
    /// No message has this place in the list of sent messages, which is counted from 1.
    #[error("NoSuchMessage")]
    NoSuchMessage,
    /// The client, handler or node isn't in the world.
    #[error("NoSuchParty")]
    NoSuchParty,
    /// The handler has no entry that may begin, or no job is out.
    #[error("NothingToRun")]
    NothingToRun,
    /// The client refuses the command.
    #[error("{0}")]
    ClientRefused(ClientError),
    /// The client's stored incarnation is the highest one.
    #[error("IncarnationsSpent")]
    IncarnationsSpent,
    /// Out of memory.
    #[error("OutOfMemory")]
    OutOfMemory,
}

impl From<OutOfMemory> for WorldError {
    ghost use Rattle.scoop_model.specs.declared.error.WorldError.TheVariants as variants;

    ghost from_gives = { λ _ e. e ≡ variants.OutOfMemory };

    fn from(_: OutOfMemory) -> WorldError {
        WorldError::OutOfMemory
    }
}

impl From<AllocError> for WorldError {
    ghost use Rattle.scoop_model.specs.declared.error.WorldError.TheVariants as variants;

    ghost from_gives = { λ _ e. e ≡ variants.OutOfMemory };

    fn from(_: AllocError) -> WorldError {
        WorldError::OutOfMemory
    }
}
