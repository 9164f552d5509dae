//! Objects that interpret the rows of their class.

ghost use Rattle.std.specs.Prelude.{◌≡◌, ◌↔◌, length, IsOk, IfOk};

use crate::behaviour::Behaviour;
use crate::class::Class;
use crate::effect::effect;
use crate::object::WrongWords;
use scoop_message::{Answer, Request, Words};
use std::alloc::{Allocator, Global};

/// An object of any class, which interprets the rows of its class.
#[derive(Drop, Debug)]
pub struct Table<A: Allocator = Global> {
    class: Class<A>,
    words: Words,
    ghost fits: { length words ≡ class.words },
}

impl<A: Allocator> Table<A> {
    /// Makes an object of a class, with its words. Returns `WrongWords` exactly if their number isn't that of the
    /// class.
    pub fn new(class: Class<A>, words: Words) -> Result<Table<A>, WrongWords>
        ensures accepted { IsOk result ↔ (length words ≡ class.words) }
        ensures class { IfOk result (λ t. ⟦<Table<A> as Behaviour>⟧.class t ≡ class) }
        ensures words { IfOk result (λ t. ⟦<Table<A> as Behaviour>⟧.words t ≡ words) }
    {
        if words.len() != class.words() {
            return Err(WrongWords);
        }
        Ok(Table { class, words })
    }
}

impl<A: Allocator> Behaviour for Table<A> {
    ghost class = { λ t. t.class };

    ghost words = { λ t. t.words };

    fn words(&self) -> Words {
        self.words
    }

    fn apply(&mut self, request: &Request) -> Answer {
        let (new, answer) = effect(&self.class, &self.words, request);
        self.words = new;
        answer
    }

    fn restore(&mut self, new: Words) -> Result<(), WrongWords> {
        if new.len() != self.class.words() {
            return Err(WrongWords);
        }
        self.words = new;
        Ok(())
    }

    fn has_class(&self, other: &Class) -> bool {
        self.class.same(other)
    }
}
