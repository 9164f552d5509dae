//! Objects of one type, in generic code.

ghost use Rattle.std.specs.Prelude.{◌≡◌, ◌↔◌, ℕ, List, length, IsTrue, IsOk, OnOk, OnErr};
ghost use Rattle.scoop_object.specs.Class.{ClassTable};
ghost use Rattle.scoop_object.specs.Effect.{eff};

use crate::class::Class;
use crate::object::WrongWords;
use scoop_message::{Answer, Request, Words};

/// An object that generic code runs: a `Table`, or an object of any type that is `Boxed`. Contracts
/// see its class and its words.
///
/// Equal class, words and request give equal new words and an equal answer, whatever the objects' types. Both are
/// the effect of the request (`apply_both`). None of the calls takes memory.
pub trait Behaviour: Drop {
    /// Its class.
    ghost class: { Self → ClassTable };

    /// Its words.
    ghost words: { Self → List ℕ };

    /// The words, as many as the class has.
    fn words(&self) -> Words
        ensures words { result ≡ words self.now }
        ensures fits { length result ≡ (class self.now).words };

    /// Runs a request and returns its answer. Returns `Refused`, with the words as they were, if the class has no
    /// such operation, if a term of the operation names an argument that the request lacks, or if the operation's
    /// test fails.
    fn apply(&mut self, request: &Request) -> Answer
        ensures class { class self.new ≡ class self.old }
        ensures words { words self.new ≡ (eff (class self.old) (words self.old) request.now).0 }
        ensures answer { result ≡ (eff (class self.old) (words self.old) request.now).1 };

    /// Sets the words. Returns `WrongWords`, with the words as they were, exactly if their number isn't that of
    /// the class.
    fn restore(&mut self, new: Words) -> Result<(), WrongWords>
        ensures accepted { IsOk result ↔ (length new ≡ (class self.old).words) }
        ensures class { class self.new ≡ class self.old }
        ensures restored { OnOk result (words self.new ≡ new) }
        ensures refused { OnErr result (words self.new ≡ words self.old) };

    /// Whether its class is this one: as many words, and the same rows in the same order.
    fn has_class(&self, other: &Class) -> bool
        ensures { IsTrue result ↔ (class self.now ≡ other.now) };
}
