//! The reasons to refuse a client or one of its commands.

ghost use Rattle.std.specs.Prelude.{◌≡◌};
ghost use Rattle.scoop_client.specs.declared.error.BeginError.TheVariants.{OutOfMemory};

use scoop_message::HandlerId;
use scoop_reserve::ReserveError;
use std::alloc::AllocError;
use thiserror::Error;

/// Why a client doesn't begin, in the order in which it is tested.
#[derive(Clone, Copy, Debug, PartialEq, Eq, Error)]
pub enum BeginError {
    /// No handler is named.
    #[error("NoHandlers")]
    NoHandlers,
    /// More than `MAX_HANDLERS` handlers are named.
    #[error("TooManyHandlers")]
    TooManyHandlers,
    /// This handler stands at the first place that repeats an earlier one.
    #[error("Repeated {0}")]
    Repeated(HandlerId),
    /// A growth of memory was refused.
    #[error("out of memory")]
    OutOfMemory,
}

/// Why a command is refused, in the order in which it is tested. A refused command changes nothing.
#[derive(Clone, Copy, Debug, PartialEq, Eq, Error)]
pub enum ClientError {
    /// Some handler hasn't welcomed the client yet.
    #[error("NotGreeted")]
    NotGreeted,
    /// The client has a block already.
    #[error("NotIdle")]
    NotIdle,
    /// The client has no block that the command fits.
    #[error("NoBlock")]
    NoBlock,
    /// A query at this handler waits for its answer.
    #[error("Waiting {0}")]
    Waiting(HandlerId),
    /// The block hasn't reserved this handler.
    #[error("NotReserved {0}")]
    NotReserved(HandlerId),
    /// `MAX_UNACKNOWLEDGED` entries at this handler aren't acknowledged.
    #[error("WindowFull {0}")]
    WindowFull(HandlerId),
    /// All handlers are locked already, or the block was given up before.
    #[error("TooLate")]
    TooLate,
    /// The block numbers or the entry numbers are used up.
    #[error("Spent")]
    Spent,
    /// The handlers can't be reserved.
    #[error("{0}")]
    Reserve(ReserveError),
    /// A growth of memory was refused.
    #[error("out of memory")]
    OutOfMemory,
}

impl From<AllocError> for BeginError {
    ghost from_gives = { λ _ e. e ≡ OutOfMemory };

    fn from(_: AllocError) -> BeginError {
        BeginError::OutOfMemory
    }
}
