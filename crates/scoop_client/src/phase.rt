//! The phases and the notes of a client.

use scoop_message::{Answer, HandlerId};

/// The phase of a client.
#[derive(Clone, Copy, Debug, PartialEq, Eq)]
pub enum Phase {
    /// It greets its handlers.
    Greeting,
    /// It has no block.
    Idle,
    /// It locks its block's handlers one by one.
    Locking,
    /// It opens a private queue at each handler.
    Opening,
    /// It takes calls and queries.
    Running,
    /// Its block's Ends are logged, and not all are acknowledged.
    Ending,
    /// It gave its block up, and unlocks the handlers that it asked.
    GivingUp,
}

/// The effect of a message on a client.
#[derive(Clone, Copy, Debug, PartialEq, Eq)]
pub enum ClientNote {
    /// The handler has welcomed the client.
    Welcomed(HandlerId),
    /// The handler is locked.
    Locked(HandlerId),
    /// Another block holds the handler's lock. Nothing has changed.
    Busy(HandlerId),
    /// The handler has a private queue for the block.
    Opened(HandlerId),
    /// The block has given the handler's lock back.
    Unlocked(HandlerId),
    /// The handler has received the entries up to this number.
    Acknowledged(HandlerId, u32),
    /// The waiting query of this number has its answer.
    Accepted(HandlerId, u32, Answer),
    /// The message wasn't awaited. Nothing has changed.
    Ignored,
}
