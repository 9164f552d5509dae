//! An account, as a type of its own.

ghost use Rattle.std.specs.Prelude.{◌≡◌, [], ◌∷◌};
ghost use Rattle.scoop_classes.specs.Classes.{account_class};

use crate::classes::rows::account_rows;
use scoop_message::{Answer, Request, Words};
use scoop_object::{Class, Object, WrongWords};

/// An account, which holds a balance.
#[derive(Drop, Debug)]
pub struct AccountObject {
    balance: u64,
}

impl AccountObject {
    /// An account with a balance.
    pub fn new(balance: u64) -> AccountObject
        ensures class { ⟦<AccountObject as Object>⟧.class result ≡ account_class }
        ensures words { ⟦<AccountObject as Object>⟧.words result ≡ balance ∷ [] }
    {
        AccountObject { balance }
    }
}

impl Object for AccountObject {
    ghost class = { λ _. account_class };

    ghost words = { λ a. a.balance ∷ [] };

    fn words(&self) -> Words {
        match Words::of(&[self.balance]) {
            Ok(words) => words,
            Err(_) => unreachable!(),
        }
    }

    fn apply(&mut self, request: &Request) -> Answer {
        match (request.op, request.args.get(0)) {
            (1, Some(amount)) => {
                self.balance = self.balance.saturating_add(amount);
                Answer::Value(self.balance)
            }
            (2, Some(amount)) if amount <= self.balance => {
                self.balance -= amount;
                Answer::Value(self.balance)
            }
            (3, _) => Answer::Value(self.balance),
            _ => Answer::Refused,
        }
    }

    fn restore(&mut self, new: Words) -> Result<(), WrongWords> {
        match new.as_slice() {
            [balance] => {
                self.balance = *balance;
                Ok(())
            }
            _ => Err(WrongWords),
        }
    }

    fn has_class(&self, other: &Class) -> bool {
        other.is(1, &account_rows())
    }
}
