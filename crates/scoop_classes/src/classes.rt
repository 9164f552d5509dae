//! The demo classes, by name.

ghost use Rattle.std.specs.Prelude.{◌≡◌, Some, map, IsTrue, IfOk};
ghost use Rattle.std.specs.List.{list_any};
ghost use Rattle.scoop_object.specs.Class.{IsClass};
ghost use Rattle.scoop_classes.specs.Classes.{class_name, class_of_name, class_named, same_text, table_of};

pub(crate) mod rows;

use rows::{account_rows, cell_rows, counter_rows, exchange_rows};
use scoop_message::OutOfMemory;
use scoop_object::{Class, ClassError, OpRow};
use std::alloc::Allocator;

/// One of the demo classes.
#[derive(Clone, Copy, Debug, PartialEq, Eq)]
pub enum DemoClass {
    /// Holds a word: 1 sets it, 2 gets it.
    Cell,
    /// Holds a sum: 1 adds to it, 2 gets it.
    Counter,
    /// Holds a balance: 1 deposits, 2 withdraws if there is enough, 3 gets the balance.
    Account,
    /// Holds two words: 1 puts one, and returns the one before it.
    Exchange,
}

impl DemoClass {
    /// The class of that name, or `None` if no class has it.
    pub fn from_name(name: &str) -> Option<DemoClass>
        ensures value { result ≡ class_of_name name.now }
        // No class is left out.
        ensures each { (class : DemoClass) → name.now ≡ class_name class → result ≡ Some class }
    {
        match name {
            "cell" => Some(DemoClass::Cell),
            "counter" => Some(DemoClass::Counter),
            "account" => Some(DemoClass::Account),
            "exchange" => Some(DemoClass::Exchange),
            _ => None,
        }
    }

    /// Its name: `cell`, `counter`, `account` or `exchange`.
    pub fn name(self) -> &'static str
        ensures { result.now ≡ class_name self }
    {
        match self {
            DemoClass::Cell => "cell",
            DemoClass::Counter => "counter",
            DemoClass::Account => "account",
            DemoClass::Exchange => "exchange",
        }
    }

    /// The names of all classes.
    pub fn names() -> [&'static str; 4]
        ensures { (class : DemoClass) → IsTrue (list_any (same_text (class_name class)) (map (λ name. name.now) result)) }
    {
        [
            DemoClass::Cell.name(),
            DemoClass::Counter.name(),
            DemoClass::Account.name(),
            DemoClass::Exchange.name(),
        ]
    }

    /// Makes the class itself. `OutOfMemory` is the one refusal.
    pub fn class<A: Allocator>(self, alloc: A) -> Result<Class<A>, OutOfMemory>
        ensures { IfOk result (λ class. class ≡ table_of self) }
    {
        match self {
            DemoClass::Cell => class_of(alloc, 1, &cell_rows()),
            DemoClass::Counter => class_of(alloc, 1, &counter_rows()),
            DemoClass::Account => class_of(alloc, 1, &account_rows()),
            DemoClass::Exchange => class_of(alloc, 2, &exchange_rows()),
        }
    }
}

/// Makes the class of that name: `cell`, `counter`, `account` or `exchange`. Returns `None` if there is none.
pub fn demo_class<A: Allocator>(alloc: A, name: &str) -> Result<Option<Class<A>>, OutOfMemory>
    ensures { IfOk result (λ class. class ≡ class_named name.now) }
{
    match DemoClass::from_name(name) {
        Some(class) => Ok(Some(class.class(alloc)?)),
        None => Ok(None),
    }
}

// Builds the class of rows that are known to make one.
fn class_of<A: Allocator>(alloc: A, words: u8, rows: &[OpRow]) -> Result<Class<A>, OutOfMemory>
    requires { IsClass words rows.now }
    ensures { IfOk result (λ class. class ≡ record { words = words; rows = rows.now }) }
{
    match Class::build(alloc, words, rows) {
        Ok(class) => Ok(class),
        Err(ClassError::OutOfMemory) => Err(OutOfMemory),
        Err(_) => unreachable!(),
    }
}
