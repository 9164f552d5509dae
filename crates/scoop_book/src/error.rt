//! Why calls on books and nodes are refused.

ghost use Rattle.std.specs.Prelude.{◌≡◌};

use crate::node::Node;
use crate::pass::Pass;
use scoop_handler::Done;
use scoop_keeper::{Keeper, KeeperError};
use scoop_message::{HandlerId, OutOfMemory};
use scoop_object::Behaviour;
use std::alloc::{AllocError, AllocFailed, Allocator, Global};
use thiserror::Error;

/// Why a book or a node doesn't open, in the order in which it is tested.
#[derive(Clone, Copy, Debug, PartialEq, Eq, Error)]
pub enum OpenError {
    /// The caller asks for no pass.
    #[error("NoPasses")]
    NoPasses,
    /// The object of this handler hasn't the class that comes with it, or the handler's stored state has another
    /// number of words than the class.
    #[error("WrongClass {0}")]
    WrongClass(HandlerId),
    /// This handler stands at the first place that repeats an earlier one.
    #[error("Repeated {0}")]
    Repeated(HandlerId),
    /// The keeper refuses to load.
    #[error("{0}")]
    Keeper(KeeperError),
    /// A growth of memory was refused.
    #[error("out of memory")]
    OutOfMemory,
}

/// Why a book or a node doesn't open again, in the order in which it is tested.
#[derive(Clone, Copy, Debug, PartialEq, Eq, Error)]
pub enum ReopenError {
    /// It doesn't open at all.
    #[error("{0}")]
    Unopened(OpenError),
    /// The handlers don't open with the states and the classes with which they stood.
    #[error("OtherStates")]
    OtherStates,
}

/// Why an event isn't entered, in the order in which it is tested. Printed as its name, but out of memory in words.
#[derive(Clone, Copy, Debug, PartialEq, Eq, Error)]
pub enum BookError {
    /// The keeper has refused a state before. Nothing is entered until the node is opened again.
    #[error("NodeFailed")]
    NodeFailed,
    /// The history has as many entries as it may have.
    #[error("HistoryFull")]
    HistoryFull,
    /// The handler isn't here.
    #[error("UnknownHandler")]
    UnknownHandler,
    /// The keeper refuses the new state.
    #[error("StoreRefused")]
    StoreRefused,
    /// A growth of memory was refused.
    #[error("out of memory")]
    OutOfMemory,
}

/// Why a job isn't finished, in the order in which it is tested. Printed as its name, but out of memory in words.
#[derive(Clone, Copy, Debug, PartialEq, Eq, Error)]
pub enum FinishRefusal {
    /// The keeper has refused a state before. Nothing is entered until the node is opened again.
    #[error("NodeFailed")]
    NodeFailed,
    /// The history has as many entries as it may have.
    #[error("HistoryFull")]
    HistoryFull,
    /// The job's handler isn't here.
    #[error("UnknownHandler")]
    UnknownHandler,
    /// The job isn't the one that is out at its handler.
    #[error("Stranger")]
    Stranger,
    /// The keeper refuses the new state.
    #[error("StoreRefused")]
    StoreRefused,
    /// A growth of memory was refused.
    #[error("out of memory")]
    OutOfMemory,
}

/// A job that isn't finished, and is returned.
#[derive(Drop)]
pub struct FinishError<B: Behaviour> {
    /// Why it isn't finished.
    pub cause: FinishRefusal,
    /// The job.
    pub done: Done<B>,
}

/// Why a node isn't closed, in the order in which it is tested. Printed as its name, but out of memory in words.
#[derive(Clone, Copy, Debug, PartialEq, Eq, Error)]
pub enum CloseRefusal {
    /// The passes aren't those that the node opened with, each once.
    #[error("MissingPass")]
    MissingPass,
    /// The pass of this number differs from the history.
    #[error("PassDiffers {0}")]
    PassDiffers(u32),
    /// A growth of memory was refused. Closing takes no memory, so this never comes.
    #[error("out of memory")]
    OutOfMemory,
}

/// A node that isn't closed. It is returned with the passes.
#[derive(Drop)]
pub struct CloseError<B: Behaviour, K: Keeper<A>, A: Allocator = Global> {
    /// Why it isn't closed.
    pub cause: CloseRefusal,
    /// The node.
    pub node: Node<B, K, A>,
    /// The passes, as they were given.
    pub passes: Vec<Pass<A>, A>,
}

impl From<OutOfMemory> for OpenError {
    ghost use Rattle.scoop_book.specs.declared.error.OpenError.TheVariants as variants;

    ghost from_gives = { λ _ e. e ≡ variants.OutOfMemory };

    fn from(_: OutOfMemory) -> OpenError {
        OpenError::OutOfMemory
    }
}

impl From<AllocError> for OpenError {
    ghost use Rattle.scoop_book.specs.declared.error.OpenError.TheVariants as variants;

    ghost from_gives = { λ _ e. e ≡ variants.OutOfMemory };

    fn from(_: AllocError) -> OpenError {
        OpenError::OutOfMemory
    }
}

impl<T: Drop> From<AllocFailed<T>> for OpenError {
    ghost use Rattle.scoop_book.specs.declared.error.OpenError.TheVariants as variants;

    ghost from_gives = { λ _ e. e ≡ variants.OutOfMemory };

    fn from(_: AllocFailed<T>) -> OpenError {
        OpenError::OutOfMemory
    }
}
