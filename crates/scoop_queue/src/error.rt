//! Why a call on the queue of queues is refused. Each refusal leaves the queues as they were.

ghost use Rattle.std.specs.Prelude.{◌≡◌};

use scoop_message::OutOfMemory;
use thiserror::Error;

/// Why no private queue was opened, in the order in which it is tested.
#[derive(Clone, Copy, Debug, PartialEq, Eq, Error)]
pub enum OpenQueueError {
    /// There are `MAX_QUEUES` private queues.
    #[error("QueueFull")]
    QueueFull,
    /// The block has a private queue.
    #[error("AlreadyThere")]
    AlreadyThere,
    /// A growth of memory was refused.
    #[error("out of memory")]
    OutOfMemory,
}

/// Why no entry was put, in the order in which it is tested.
#[derive(Clone, Copy, Debug, PartialEq, Eq, Error)]
pub enum PutError {
    /// The block has no private queue.
    #[error("NotThere")]
    NotThere,
    /// Its private queue has ended or was cut.
    #[error("Ended")]
    Ended,
    /// With the new entries more than `MAX_PENDING` would be pending.
    #[error("PendingFull")]
    PendingFull,
    /// A growth of memory was refused.
    #[error("out of memory")]
    OutOfMemory,
}

/// Why no private queue was appended, in the order in which it is tested.
#[derive(Clone, Copy, Debug, PartialEq, Eq, Error)]
pub enum AppendError {
    /// There are `MAX_QUEUES` private queues.
    #[error("QueueFull")]
    QueueFull,
    /// The block has a private queue.
    #[error("AlreadyThere")]
    AlreadyThere,
    /// Head and entries are no private queue.
    #[error("BadQueue")]
    BadQueue,
    /// A growth of memory was refused.
    #[error("out of memory")]
    OutOfMemory,
}

impl From<OutOfMemory> for OpenQueueError {
    ghost use Rattle.scoop_queue.specs.declared.error.OpenQueueError.TheVariants as variants;

    ghost from_gives = { λ _ e. e ≡ variants.OutOfMemory };

    fn from(_: OutOfMemory) -> OpenQueueError {
        OpenQueueError::OutOfMemory
    }
}

impl From<OutOfMemory> for PutError {
    ghost use Rattle.scoop_queue.specs.declared.error.PutError.TheVariants as variants;

    ghost from_gives = { λ _ e. e ≡ variants.OutOfMemory };

    fn from(_: OutOfMemory) -> PutError {
        PutError::OutOfMemory
    }
}

impl From<OutOfMemory> for AppendError {
    ghost use Rattle.scoop_queue.specs.declared.error.AppendError.TheVariants as variants;

    ghost from_gives = { λ _ e. e ≡ variants.OutOfMemory };

    fn from(_: OutOfMemory) -> AppendError {
        AppendError::OutOfMemory
    }
}
