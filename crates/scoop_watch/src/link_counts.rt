//! How many datagrams pass through a node's link.

use std::sync::atomic::{AtomicU64, Ordering};

/// Counts that one thread raises and others read.
#[derive(Drop)]
pub(crate) struct LinkCounts {
    pub(crate) received: AtomicU64,
    pub(crate) sent: AtomicU64,
    pub(crate) faults: AtomicU64,
    pub(crate) refused: AtomicU64,
}

impl LinkCounts {
    pub(crate) fn new() -> LinkCounts {
        LinkCounts {
            received: AtomicU64::new(0),
            sent: AtomicU64::new(0),
            faults: AtomicU64::new(0),
            refused: AtomicU64::new(0),
        }
    }

    pub(crate) fn tally(&self) -> LinkTally {
        LinkTally {
            received: self.received.load(Ordering::SeqCst),
            sent: self.sent.load(Ordering::SeqCst),
            faults: self.faults.load(Ordering::SeqCst),
            refused: self.refused.load(Ordering::SeqCst),
        }
    }
}

/// Adds one to a count.
pub(crate) fn add_one(count: &AtomicU64) {
    count.fetch_add(1, Ordering::SeqCst);
}

/// How many datagrams passed through a node's link since the node began.
#[derive(Clone, Copy)]
pub struct LinkTally {
    /// Datagrams that came and that its seal, if it has one, didn't refuse.
    pub received: u64,
    /// Datagrams that were sent.
    pub sent: u64,
    /// Sends and receives that failed.
    pub faults: u64,
    /// Datagrams that weren't sealed with the key.
    pub refused: u64,
}
