//! Why a chart doesn't take an event.

use scoop_message::OutOfMemory;
use thiserror::Error;

/// Why a chart doesn't take an event.
#[derive(Clone, Copy, Debug, PartialEq, Eq, Error)]
pub enum ChartError {
    /// The run has more events than a chart can show.
    #[error("a chart shows at most 2000 events")]
    TooLong,
    /// A growth of memory was refused.
    #[error("out of memory")]
    OutOfMemory,
}

impl From<OutOfMemory> for ChartError {
    fn from(_: OutOfMemory) -> ChartError {
        ChartError::OutOfMemory
    }
}
