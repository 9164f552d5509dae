//! The objects that the handlers of a node run.

ghost use Rattle.std.specs.Prelude.{◌≡◌, IfOk, IfSome};

use scoop_message::{Answer, HandlerId, OutOfMemory, Request, Words};
use scoop_object::{Behaviour, Class, Object, Table, WrongWords};
use std::alloc::Global;

/// A maker of the objects of a node's handlers. The maker [`Tables`] interprets the table of each class. A program may
/// make objects of a type of its own, as long as they follow that table.
pub trait Objects: Drop {
    /// The type of the objects.
    type Object: Behaviour + Send;

    /// A new object of this handler with these words. The node refuses an object of another class than this one. `None` if
    /// it makes no object for the handler; `OutOfMemory` is the one error.
    fn object(
        &self,
        alloc: Global,
        handler: HandlerId,
        class: &Class,
        words: Words,
    ) -> Result<Option<Self::Object>, OutOfMemory>
        ensures { IfOk result (λ made. IfSome made (λ object. Self.Object.words object ≡ words)) };
}

/// Makes tables, which interpret the class of each handler.
#[derive(Clone, Copy, Debug)]
pub struct Tables;

impl Objects for Tables {
    type Object = Table;

    fn object(
        &self,
        alloc: Global,
        _handler: HandlerId,
        class: &Class,
        words: Words,
    ) -> Result<Option<Table>, OutOfMemory> {
        match Table::new(class.copy_in(alloc)?, words) {
            Ok(table) => Ok(Some(table)),
            Err(_) => Ok(None),
        }
    }
}

/// A reference to a maker makes the same objects as the maker.
impl<'o, O: Objects> Objects for &'o O {
    type Object = O::Object;

    fn object(
        &self,
        alloc: Global,
        handler: HandlerId,
        class: &Class,
        words: Words,
    ) -> Result<Option<O::Object>, OutOfMemory> {
        (**self).object(alloc, handler, class, words)
    }
}

/// An object of a program's own type, which a handler runs without a box.
#[derive(Drop)]
pub struct Native<O: Object> {
    object: O,
}

impl<O: Object> Native<O> {
    /// This object.
    pub fn new(object: O) -> Native<O>
        ensures class { ⟦<Native<O> as Behaviour>⟧.class result ≡ O.class object }
        ensures words { ⟦<Native<O> as Behaviour>⟧.words result ≡ O.words object }
    {
        Native { object }
    }
}

impl<O: Object> Behaviour for Native<O> {
    ghost class = { λ n. O.class n.object };

    ghost words = { λ n. O.words n.object };

    fn words(&self) -> Words {
        self.object.words()
    }

    fn apply(&mut self, request: &Request) -> Answer {
        self.object.apply(request)
    }

    fn restore(&mut self, new: Words) -> Result<(), WrongWords> {
        self.object.restore(new)
    }

    fn has_class(&self, other: &Class) -> bool {
        self.object.has_class(other)
    }
}
