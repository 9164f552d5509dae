//! The choices for the next event in a world that settles.

use scoop_message::{ClientId, HandlerId};

/// The next event in a world that isn't calm, or the next three if a client asks.
#[derive(Clone, Copy, Debug, PartialEq, Eq)]
pub enum Next {
    /// The job that is out at this handler is finished.
    Finish(HandlerId),
    /// This handler's next entry leaves to be run.
    Begin(HandlerId),
    /// The client sends the handler what it owes to it, the handler takes that at once, and the client the reply.
    Ask(ClientId, HandlerId),
    /// The client ends its block.
    End(ClientId),
}
