//! A counter, as a type of its own.

ghost use Rattle.std.specs.Prelude.{◌≡◌, [], ◌∷◌};
ghost use Rattle.scoop_classes.specs.Classes.{counter_class};

use crate::classes::rows::counter_rows;
use scoop_message::{Answer, Request, Words};
use scoop_object::{Class, Object, WrongWords};

/// A counter, which holds a count.
#[derive(Drop, Debug)]
pub struct CounterObject {
    count: u64,
}

impl CounterObject {
    /// A counter with a count.
    pub fn new(count: u64) -> CounterObject
        ensures class { ⟦<CounterObject as Object>⟧.class result ≡ counter_class }
        ensures words { ⟦<CounterObject as Object>⟧.words result ≡ count ∷ [] }
    {
        CounterObject { count }
    }
}

impl Object for CounterObject {
    ghost class = { λ _. counter_class };

    ghost words = { λ c. c.count ∷ [] };

    fn words(&self) -> Words {
        match Words::of(&[self.count]) {
            Ok(words) => words,
            Err(_) => unreachable!(),
        }
    }

    fn apply(&mut self, request: &Request) -> Answer {
        match (request.op, request.args.get(0)) {
            (1, Some(step)) => {
                self.count = self.count.saturating_add(step);
                Answer::Value(self.count)
            }
            (2, _) => Answer::Value(self.count),
            _ => Answer::Refused,
        }
    }

    fn restore(&mut self, new: Words) -> Result<(), WrongWords> {
        match new.as_slice() {
            [count] => {
                self.count = *count;
                Ok(())
            }
            _ => Err(WrongWords),
        }
    }

    fn has_class(&self, other: &Class) -> bool {
        other.is(1, &counter_rows())
    }
}
