//! The head and the state of a private queue.

use scoop_message::Block;

/// Whether a private queue takes more entries.
#[derive(Clone, Copy, Debug, PartialEq, Eq)]
pub enum QueueState {
    /// It takes more.
    Open,
    /// Its last entry is the block's End.
    Ended,
    /// Its client has started anew: received entries still run, and no more come.
    Cut,
}

/// A private queue without its entries.
#[derive(Clone, Copy, Debug, PartialEq, Eq)]
pub struct Head {
    pub block: Block,
    /// The number of the first pending entry, counted from 1 in the private queue.
    pub first: u32,
    pub state: QueueState,
}
