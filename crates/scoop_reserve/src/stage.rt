//! The stages of a reservation, and the steps that it takes.

use scoop_message::HandlerId;

/// The progress of a reservation.
#[derive(Clone, Copy, Debug, PartialEq, Eq)]
pub enum Stage {
    /// The handlers are locked one by one, the lowest first.
    Locking,
    /// All are locked, and a private queue is opened at each.
    Opening,
    /// All are opened, and each is unlocked.
    Unlocking,
    /// It was given up, and each handler that it asked is unlocked.
    GivingUp,
}

/// The effect of a message on a reservation.
#[derive(Clone, Copy, Debug, PartialEq, Eq)]
pub enum Step {
    /// The handler is locked.
    Locked(HandlerId),
    /// Another block holds the handler's lock. Nothing has changed.
    Busy(HandlerId),
    /// The handler has a private queue for the block.
    Opened(HandlerId),
    /// The block has given the handler's lock back.
    Unlocked(HandlerId),
    /// The message wasn't awaited. Nothing has changed.
    Ignored,
}
