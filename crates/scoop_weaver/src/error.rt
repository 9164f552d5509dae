//! The reasons why there is no order.

use thiserror::Error;

/// Why the parties' moves have no order.
#[derive(Clone, Copy, Debug, PartialEq, Eq, Error)]
pub enum NoWeave {
    /// The move at this place of this party, both counted from 0, hears a message that no order of the parties' moves
    /// sends before.
    #[error("move {1} of party {0} hears a message that was not sent before")]
    Unsent(usize, usize),
    /// Memory ran out.
    #[error("out of memory")]
    OutOfMemory,
}
