//! The messages that were sent.

ghost use Rattle.std.specs.Prelude.{◌≡◌, ◌↔◌, ◌⊎◌, [], Contains, IsTrue, OnOk};
ghost use Rattle.scoop_message.specs.declared.message.Message.{Message as Told};

use crate::key::Key;
use indexmap::IndexSet;
use scoop_message::{Message, OutOfMemory};
use std::alloc::Allocator;
use std::hash::{BuildHasherDefault, FoldHasher};
use std::marker::Model;

/// The messages that were sent so far, each once.
#[derive(Drop)]
pub(crate) struct Sent<A: Allocator> {
    messages: IndexSet<Key, BuildHasherDefault<FoldHasher>, A>,
}

impl<A: Allocator> Model for Sent<A> {
    ghost use Rattle.std.specs.Prelude.{List, map};
    ghost use Rattle.scoop_message.specs.declared.message.Message.{Message as Told};

    ghost Value = { List Told };

    ghost view = { λ s. map (λ k. k.0) s.messages.keys };
}

impl<A: Allocator + Copy> Sent<A> {
    pub(crate) fn new(alloc: A) -> Sent<A>
        ensures { result ≡ [] }
    {
        Sent {
            messages: IndexSet::new(alloc),
        }
    }
}

impl<A: Allocator> Sent<A> {
    /// Whether the message was sent.
    pub(crate) fn has(&self, message: &Message) -> bool
        ensures { IsTrue result ↔ Contains self.now message.now }
    {
        self.messages.contains(&Key(*message))
    }

    /// The message was sent too.
    pub(crate) fn add(&mut self, message: &Message) -> Result<(), OutOfMemory>
        ensures { OnOk result ((m : Told) → Contains self.new m ↔ (Contains self.old m ⊎ (m ≡ message.now))) }
    {
        self.messages.insert(Key(*message))?;
        Ok(())
    }
}
