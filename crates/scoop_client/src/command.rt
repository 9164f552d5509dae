//! The commands of a client.

use crate::handlers::HandlerList;
use scoop_message::{HandlerId, Request};

/// A command to a client.
#[derive(Clone, Copy, Debug, PartialEq, Eq)]
pub enum Command {
    /// Begin a block over these handlers.
    Reserve(HandlerList),
    /// Log a call at this handler.
    Call(HandlerId, Request),
    /// Log a query at this handler.
    Query(HandlerId, Request),
    /// Log the block's end at each of its handlers.
    End,
    /// Give up the block, which isn't locked at all its handlers yet.
    GiveUp,
}
