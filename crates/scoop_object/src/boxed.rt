//! Objects in boxes.

ghost use Rattle.std.specs.Prelude.{◌≡◌};

use crate::behaviour::Behaviour;
use crate::class::Class;
use crate::object::{Object, WrongWords};
use scoop_message::{Answer, Request, Words};

/// An object of any type in a box, which the program, a test or another caller made.
#[derive(Drop)]
pub struct Boxed {
    object: Box<dyn Object + Send>,
}

impl Boxed {
    /// The object in the box.
    pub fn new(object: Box<dyn Object + Send>) -> Boxed
        ensures class { ⟦<Boxed as Behaviour>⟧.class result ≡ class object }
        ensures words { ⟦<Boxed as Behaviour>⟧.words result ≡ words object }
    {
        Boxed { object }
    }
}

impl Behaviour for Boxed {
    ghost class = { λ b. (Object-box b.object).class b.object.value };

    ghost words = { λ b. (Object-box b.object).words b.object.value };

    fn words(&self) -> Words {
        self.object.words()
    }

    fn apply(&mut self, request: &Request) -> Answer {
        self.object.apply(request)
    }

    fn restore(&mut self, new: Words) -> Result<(), WrongWords> {
        self.object.restore(new)
    }

    fn has_class(&self, other: &Class) -> bool {
        self.object.has_class(other)
    }
}
