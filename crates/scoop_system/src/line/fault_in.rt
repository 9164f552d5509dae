//! The fault of a line, printed with what the system has instead.

ghost use Rattle.std.specs.Prelude.{◌≡◌};
ghost use Rattle.std.specs.Fmt.{WritesOnOk};
ghost use Rattle.scoop_system.specs.LineText.{names_text, class_names_text, choice_text};

use super::fault::LineFault;
use crate::class::{OwnOperation, class_named};
use crate::operations::known_names;
use crate::place::HandlerClass;
use crate::system::System;
use std::fmt;

/// The fault of a line to a client of this system. Printed as the fault; after an operation that the handler doesn't have come
/// those that it has: `no such operation "lefft": the class stock has order, left`.
#[derive(Clone, Copy)]
pub struct LineFaultIn<'a> {
    pub system: &'a System,
    pub fault: LineFault,
}

impl fmt::Display for LineFaultIn<'_> {
    ghost use Rattle.std.specs.Prelude.{Some};
    ghost use Rattle.scoop_system.specs.LineText.{fault_text_in};

    ghost output = { λ f. Some (fault_text_in f.system.now f.fault) };

    fn fmt<W: fmt::Write>(&self, f: &mut fmt::Formatter<W>) -> fmt::Result {
        let fault = self.fault;
        write!(f, "{fault}")?;
        match fault {
            LineFault::NoSuchOperation(handler, _) => match self.system.handler(handler) {
                Some(place) => write_choice(self.system, place.class, f),
                None => Ok(()),
            },
            _ => Ok(()),
        }
    }
}

// Writes the operations of a class.
fn write_choice<W: fmt::Write>(
    system: &System,
    class: HandlerClass,
    f: &mut fmt::Formatter<W>,
) -> fmt::Result
    ensures { WritesOnOk W.write_str_gives f.old result (choice_text system.now.classes class) f.new }
{
    write!(f, ": the class {class} has ")?;
    match class {
        HandlerClass::Known(class) => f.write_str(known_names(class)),
        HandlerClass::Own(name) => match class_named(system.classes(), name.as_bytes()) {
            Some(own) => write_names(own.operations(), f),
            None => Ok(()),
        },
    }
}

// Writes the names of operations.
fn write_names<W: fmt::Write>(operations: &[OwnOperation], f: &mut fmt::Formatter<W>) -> fmt::Result
    ensures { WritesOnOk W.write_str_gives f.old result (names_text operations.now) f.new }
{
    match operations {
        [] => f.write_str("no operation"),
        [last] => f.write_str(last.name.as_str()),
        [first, rest @ ..] => {
            f.write_str(first.name.as_str())?;
            f.write_str(", ")?;
            write_names(rest, f)
        }
    }
}
