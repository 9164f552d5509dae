//! The notes that events return.

use scoop_client::ClientNote;
use scoop_handler::{Note, Ran};
use scoop_message::Block;

/// The effect of an event. A place in the list of sent messages is counted from 1.
#[derive(Clone, Copy, Debug, PartialEq, Eq)]
pub enum WorldNote {
    /// The client took the command.
    Done,
    /// The client owes the handler nothing.
    Silent,
    /// A message was sent, with this place.
    Sent(usize),
    /// The handler's note on a message, and the place of its reply, if there is one.
    Handler(Note, Option<usize>),
    /// The client's note on a message.
    Client(ClientNote),
    /// The entry of this number of the block has begun.
    Began(Block, u32),
    /// The entry has run.
    Ran(Ran),
    /// The client has restarted with this incarnation.
    Restarted(u32),
    /// The node has restarted.
    Reopened,
}
