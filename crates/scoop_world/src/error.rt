//! The reasons why a world doesn't open.

ghost use Rattle.std.specs.Prelude.{◌≡◌};

use scoop_message::{ClientId, HandlerId, OutOfMemory};
use std::alloc::{AllocError, AllocFailed};
use thiserror::Error;

/// Why a world doesn't open, in the order in which it is tested. Printed as its name; `OutOfMemory` is printed in
/// words.
#[derive(Clone, Copy, Debug, PartialEq, Eq, Error)]
pub enum WorldOpenError {
    /// No handler is placed.
    #[error("NoHandlers")]
    NoHandlers,
    /// More than `MAX_HANDLERS` handlers are placed.
    #[error("TooManyHandlers")]
    TooManyHandlers,
    /// This handler stands at the first place that repeats an earlier one.
    #[error("Repeated")]
    Repeated(HandlerId),
    /// This handler is the first whose object isn't of the class placed with it.
    #[error("WrongClass")]
    WrongClass(HandlerId),
    /// There are more than `MAX_CLIENTS` clients.
    #[error("TooManyClients")]
    TooManyClients,
    /// This client stands at the first place that repeats an earlier one.
    #[error("RepeatedClient")]
    RepeatedClient(ClientId),
    /// A client's stored incarnation is the highest possible one.
    #[error("IncarnationsSpent")]
    IncarnationsSpent,
    /// A growth of memory was refused.
    #[error("out of memory")]
    OutOfMemory,
}

impl From<OutOfMemory> for WorldOpenError {
    ghost use Rattle.scoop_world.specs.declared.error.WorldOpenError.TheVariants as variants;

    ghost from_gives = { λ _ e. e ≡ variants.OutOfMemory };

    fn from(_: OutOfMemory) -> WorldOpenError {
        WorldOpenError::OutOfMemory
    }
}

impl From<AllocError> for WorldOpenError {
    ghost use Rattle.scoop_world.specs.declared.error.WorldOpenError.TheVariants as variants;

    ghost from_gives = { λ _ e. e ≡ variants.OutOfMemory };

    fn from(_: AllocError) -> WorldOpenError {
        WorldOpenError::OutOfMemory
    }
}

impl<T: Drop> From<AllocFailed<T>> for WorldOpenError {
    ghost use Rattle.scoop_world.specs.declared.error.WorldOpenError.TheVariants as variants;

    ghost from_gives = { λ _ e. e ≡ variants.OutOfMemory };

    fn from(_: AllocFailed<T>) -> WorldOpenError {
        WorldOpenError::OutOfMemory
    }
}
