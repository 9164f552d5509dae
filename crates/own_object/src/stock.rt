//! A stock, as a type of its own.

ghost use Rattle.std.specs.Prelude.{◌≡◌, [], ◌∷◌};
ghost use Rattle.own_object.specs.Stock.{stock_class};

use crate::rows::stock_rows;
use scoop_message::{Answer, Request, Words};
use scoop_object::{Class, Object, WrongWords};

/// A stock of goods: the number left, and the number ordered, which stops at the greatest number.
#[derive(Drop, Debug)]
pub struct StockObject {
    left: u64,
    ordered: u64,
}

impl StockObject {
    /// Makes a stock with `left` goods left, and `ordered` ordered before.
    pub fn new(left: u64, ordered: u64) -> StockObject
        ensures class { ⟦<StockObject as Object>⟧.class result ≡ stock_class }
        ensures words { ⟦<StockObject as Object>⟧.words result ≡ left ∷ ordered ∷ [] }
    {
        StockObject { left, ordered }
    }
}

impl Object for StockObject {
    ghost class = { λ _. stock_class };

    ghost words = { λ s. s.left ∷ s.ordered ∷ [] };

    fn words(&self) -> Words {
        match Words::of(&[self.left, self.ordered]) {
            Ok(words) => words,
            Err(_) => unreachable!(),
        }
    }

    fn apply(&mut self, request: &Request) -> Answer {
        match (request.op, request.args.get(0)) {
            (1, Some(wanted)) if wanted <= self.left => {
                self.left -= wanted;
                self.ordered = self.ordered.saturating_add(wanted);
                Answer::Value(self.left)
            }
            (2, _) => Answer::Value(self.left),
            _ => Answer::Refused,
        }
    }

    fn restore(&mut self, new: Words) -> Result<(), WrongWords> {
        match new.as_slice() {
            [left, ordered] => {
                self.left = *left;
                self.ordered = *ordered;
                Ok(())
            }
            _ => Err(WrongWords),
        }
    }

    fn has_class(&self, other: &Class) -> bool {
        other.is(2, &stock_rows())
    }
}
