//! The messages of a run, each with a number.

ghost use Rattle.std.specs.Prelude.{◌≡◌, ◌≤◌, [], IfOk, OnOk, length};
ghost use Rattle.scoop_message.specs.Lists.{NoRepeats};
ghost use Rattle.scoop_weaver.specs.Post.{Grows, NamesIt, message_at};

use crate::key::Key;
use indexmap::IndexSet;
use scoop_message::{Message, OutOfMemory};
use std::alloc::{Allocator, Global};
use std::hash::{BuildHasherDefault, FoldHasher};
use std::marker::Model;

/// The messages of a run, each once. A message's number is its place, counted from 1. Contracts see a list.
#[derive(Drop)]
pub struct Post<A: Allocator = Global> {
    messages: IndexSet<Key, BuildHasherDefault<FoldHasher>, A>,
}

impl<A: Allocator> Model for Post<A> {
    ghost use Rattle.std.specs.Prelude.{List, map};
    ghost use Rattle.scoop_message.specs.declared.message.Message.{Message as Told};

    ghost Value = { List Told };

    ghost view = { λ p. map (λ k. k.0) p.messages.keys };
}

impl<A: Allocator + Copy> Post<A> {
    /// No messages.
    pub fn new(alloc: A) -> Post<A>
        ensures { result ≡ [] }
    {
        Post {
            messages: IndexSet::new(alloc),
        }
    }
}

impl<A: Allocator> Post<A> {
    /// How many messages there are.
    pub fn len(&self) -> usize
        ensures value { result ≡ length self.now }
        ensures once { NoRepeats self.now }
    {
        self.messages.len()
    }

    /// The message of this number, if there is one.
    pub fn message(&self, number: u32) -> Option<Message>
        ensures { result ≡ message_at self.now number }
    {
        if number == 0 {
            return None;
        }
        match self.messages.get_index(number as usize - 1) {
            Some(key) => Some(key.0),
            None => None,
        }
    }

    /// The number of the message, which is added if it is new. `OutOfMemory` is the one refusal; it also comes when
    /// all numbers are used.
    pub fn number(&mut self, message: &Message) -> Result<u32, OutOfMemory>
        ensures grows { OnOk result (Grows self.old self.new) }
        ensures named { IfOk result (NamesIt self.new message.now) }
        ensures within { IfOk result (λ n. n ≤ length self.new) }
    {
        let (place, _) = self.messages.insert_full(Key(*message))?;
        if place >= u32::MAX as usize {
            return Err(OutOfMemory);
        }
        Ok(place as u32 + 1)
    }
}
