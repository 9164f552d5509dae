//! An exchange, as a type of its own.

ghost use Rattle.std.specs.Prelude.{◌≡◌, [], ◌∷◌};
ghost use Rattle.scoop_classes.specs.Classes.{exchange_class};

use crate::classes::rows::exchange_rows;
use scoop_message::{Answer, Request, Words};
use scoop_object::{Class, Object, WrongWords};
use std::mem;

/// An exchange, which holds a number and the one before it.
#[derive(Drop, Debug)]
pub struct ExchangeObject {
    held: u64,
    before: u64,
}

impl ExchangeObject {
    /// An exchange that holds a number, and the one before it.
    pub fn new(held: u64, before: u64) -> ExchangeObject
        ensures class { ⟦<ExchangeObject as Object>⟧.class result ≡ exchange_class }
        ensures words { ⟦<ExchangeObject as Object>⟧.words result ≡ held ∷ before ∷ [] }
    {
        ExchangeObject { held, before }
    }
}

impl Object for ExchangeObject {
    ghost class = { λ _. exchange_class };

    ghost words = { λ x. x.held ∷ x.before ∷ [] };

    fn words(&self) -> Words {
        match Words::of(&[self.held, self.before]) {
            Ok(words) => words,
            Err(_) => unreachable!(),
        }
    }

    fn apply(&mut self, request: &Request) -> Answer {
        match (request.op, request.args.get(0)) {
            (1, Some(number)) => {
                self.before = mem::replace(&mut self.held, number);
                Answer::Value(self.before)
            }
            _ => Answer::Refused,
        }
    }

    fn restore(&mut self, new: Words) -> Result<(), WrongWords> {
        match new.as_slice() {
            [held, before] => {
                self.held = *held;
                self.before = *before;
                Ok(())
            }
            _ => Err(WrongWords),
        }
    }

    fn has_class(&self, other: &Class) -> bool {
        other.is(2, &exchange_rows())
    }
}
