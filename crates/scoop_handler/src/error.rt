//! The reasons to refuse a call on a handler.

ghost use Rattle.std.specs.Prelude.{◌≡◌};

use crate::job::Done;
use scoop_message::OutOfMemory;
use scoop_object::Behaviour;
use std::fmt;
use thiserror::Error;

/// The object hasn't the class, or the stored words don't fit it. The error holds the object.
#[derive(Drop, Error)]
#[error("WrongClass")]
pub struct WrongClass<B>(pub B);

impl<B> fmt::Debug for WrongClass<B> {
    fn fmt<W: fmt::Write>(&self, f: &mut fmt::Formatter<W>) -> fmt::Result {
        f.write_str("WrongClass")
    }
}

/// The job isn't the one that is out. The error holds the job.
#[derive(Drop, Error)]
#[error("StrangerJob")]
pub struct StrangerJob<B: Behaviour>(pub Done<B>);

impl<B: Behaviour> fmt::Debug for StrangerJob<B> {
    fn fmt<W: fmt::Write>(&self, f: &mut fmt::Formatter<W>) -> fmt::Result {
        f.write_str("StrangerJob")
    }
}

/// Why there is no state after a job, in the order in which it is tested.
#[derive(Clone, Copy, Debug, PartialEq, Eq, Error)]
pub enum AfterError {
    /// The job isn't the one that is out.
    #[error("Stranger")]
    Stranger,
    /// A growth of memory was refused.
    #[error("out of memory")]
    OutOfMemory,
}

impl From<OutOfMemory> for AfterError {
    ghost use Rattle.scoop_handler.specs.declared.error.AfterError.TheVariants as variants;

    ghost from_gives = { λ _ e. e ≡ variants.OutOfMemory };

    fn from(_: OutOfMemory) -> AfterError {
        AfterError::OutOfMemory
    }
}
