//! The reasons to refuse a reservation.

use scoop_message::HandlerId;
use thiserror::Error;

/// Why a reservation doesn't start, in the order in which it is tested.
#[derive(Clone, Copy, Debug, PartialEq, Eq, Error)]
pub enum ReserveError {
    /// No handler is named.
    #[error("Empty")]
    Empty,
    /// More than eight handlers are named.
    #[error("TooMany")]
    TooMany,
    /// This handler stands at the first place that repeats an earlier one.
    #[error("Repeated {0}")]
    Repeated(HandlerId),
    /// This handler is the first that isn't known.
    #[error("Unknown {0}")]
    Unknown(HandlerId),
    /// A growth of memory was refused. A reservation of fixed size never returns it.
    #[error("out of memory")]
    OutOfMemory,
}

/// All handlers are locked already, or the reservation was given up before.
#[derive(Clone, Copy, Debug, PartialEq, Eq, Error)]
#[error("TooLate")]
pub struct TooLate;
