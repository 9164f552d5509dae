//! A cell, as a type of its own.

ghost use Rattle.std.specs.Prelude.{◌≡◌, [], ◌∷◌};
ghost use Rattle.scoop_classes.specs.Classes.{cell_class};

use crate::classes::rows::cell_rows;
use scoop_message::{Answer, Request, Words};
use scoop_object::{Class, Object, WrongWords};

/// A cell, which holds a number.
#[derive(Drop, Debug)]
pub struct CellObject {
    value: u64,
}

impl CellObject {
    /// A cell that holds a number.
    pub fn new(value: u64) -> CellObject
        ensures class { ⟦<CellObject as Object>⟧.class result ≡ cell_class }
        ensures words { ⟦<CellObject as Object>⟧.words result ≡ value ∷ [] }
    {
        CellObject { value }
    }
}

impl Object for CellObject {
    ghost class = { λ _. cell_class };

    ghost words = { λ c. c.value ∷ [] };

    fn words(&self) -> Words {
        match Words::of(&[self.value]) {
            Ok(words) => words,
            Err(_) => unreachable!(),
        }
    }

    fn apply(&mut self, request: &Request) -> Answer {
        match (request.op, request.args.get(0)) {
            (1, Some(value)) => {
                self.value = value;
                Answer::Value(value)
            }
            (2, _) => Answer::Value(self.value),
            _ => Answer::Refused,
        }
    }

    fn restore(&mut self, new: Words) -> Result<(), WrongWords> {
        match new.as_slice() {
            [value] => {
                self.value = *value;
                Ok(())
            }
            _ => Err(WrongWords),
        }
    }

    fn has_class(&self, other: &Class) -> bool {
        other.is(1, &cell_rows())
    }
}
