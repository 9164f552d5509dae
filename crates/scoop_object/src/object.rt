//! Objects of any type, as a `dyn`.

ghost use Rattle.std.specs.Prelude.{◌≡◌, ◌↔◌, ℕ, List, length, IsTrue, IsOk, OnOk, OnErr};
ghost use Rattle.scoop_object.specs.Class.{ClassTable};
ghost use Rattle.scoop_object.specs.Effect.{eff};

use crate::class::Class;
use scoop_message::{Answer, Request, Words};
use thiserror::Error;

/// The number of words isn't that of the class.
#[derive(Clone, Copy, Debug, PartialEq, Eq, Error)]
#[error("WrongWords")]
pub struct WrongWords;

/// An object. Contracts see its class and its words.
///
/// A type of one's own implements this trait, and is proved to do what the table of its class says. None of the
/// calls takes memory.
pub trait Object: Drop {
    /// Its class.
    ghost class: { Self → ClassTable };

    /// Its words.
    ghost words: { Self → List ℕ };

    /// The words, as many as the class has.
    fn words(&self) -> Words
        ensures words { result ≡ words self.now }
        ensures fits { length result ≡ (class self.now).words };

    /// Runs a request and returns its answer. Returns `Refused`, with the words as they were, if the class has no
    /// such operation, if a term of the operation names an argument that the request lacks, or if the operation's
    /// test fails.
    fn apply(&mut self, request: &Request) -> Answer
        ensures class { class self.new ≡ class self.old }
        ensures words { words self.new ≡ (eff (class self.old) (words self.old) request.now).0 }
        ensures answer { result ≡ (eff (class self.old) (words self.old) request.now).1 };

    /// Sets the words. Returns `WrongWords`, with the words as they were, exactly if their number isn't that of
    /// the class.
    fn restore(&mut self, new: Words) -> Result<(), WrongWords>
        ensures accepted { IsOk result ↔ (length new ≡ (class self.old).words) }
        ensures class { class self.new ≡ class self.old }
        ensures restored { OnOk result (words self.new ≡ new) }
        ensures refused { OnErr result (words self.new ≡ words self.old) };

    /// Whether its class is this one: as many words, and the same rows in the same order.
    fn has_class(&self, other: &Class) -> bool
        ensures { IsTrue result ↔ (class self.now ≡ other.now) };
}
