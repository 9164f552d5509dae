//! The text of an owner.

ghost use Rattle.std.specs.Prelude.{◌≡◌, map, OnOk, IfOk, string_bytes};
ghost use Rattle.std.specs.Option.{option_copied};
ghost use Rattle.std.specs.Io.KnownBytes.{Appends};
ghost use Rattle.scoop_system.specs.System.{class_named};
ghost use Rattle.scoop_owner.specs.Owner.{owner_text, head_text, party_text, class_lines, handler_lines, handler_line, class_line, own_class_text, joined};

use scoop_journal::Owner;
use scoop_message::OutOfMemory;
use scoop_system::{HandlerClass, HandlerPlace, OwnClass, System, print_class};
use std::alloc::Global;
use std::io;
use std::io::Write;

/// The text beside a store. It names the system with its life, the party, and for a node the class of each of its handlers.
///
/// `OutOfMemory`: an allocation was refused.
pub fn owner_text(alloc: Global, system: &System, owner: Owner) -> Result<String, OutOfMemory>
    ensures { IfOk result (λ text. string_bytes text ≡ owner_text system.now owner) }
{
    let mut text = Vec::new(alloc);
    if print_owner(alloc, system, owner, &mut text).is_err() {
        return Err(OutOfMemory);
    }
    match String::from_utf8(text) {
        Ok(text) => Ok(text),
        Err(_) => Err(OutOfMemory),
    }
}

fn print_owner<W: Write>(
    alloc: Global,
    system: &System,
    owner: Owner,
    writer: &mut W,
) -> io::Result<()>
    ensures { OnOk result (Appends (W.contents writer.old) (W.contents writer.new) (owner_text system.now owner)) }
{
    let identity = system.identity();
    print_head(identity.name_text(), identity.life_number(), writer)?;
    print_party(owner, writer)?;
    print_classes(alloc, system, owner, writer)
}

// The name and the life of the system: an empty one and 0 if it has none.
fn print_head<W: Write>(name: &str, life: u32, writer: &mut W) -> io::Result<()>
    ensures { OnOk result (Appends (W.contents writer.old) (W.contents writer.new) (head_text name.now life)) }
{
    writeln!(writer, "system = \"{name}\"")?;
    writeln!(writer, "life = {life}")
}

fn print_party<W: Write>(owner: Owner, writer: &mut W) -> io::Result<()>
    ensures { OnOk result (Appends (W.contents writer.old) (W.contents writer.new) (party_text owner)) }
{
    match owner {
        Owner::Node(number) => writeln!(writer, "node = {number}"),
        Owner::Client(client) => writeln!(writer, "client = {client}"),
    }
}

// The classes of a node's handlers.
fn print_classes<W: Write>(
    alloc: Global,
    system: &System,
    owner: Owner,
    writer: &mut W,
) -> io::Result<()>
    ensures { OnOk result (Appends (W.contents writer.old) (W.contents writer.new) (class_lines system.now owner)) }
{
    match owner {
        Owner::Node(node) => {
            print_handlers(alloc, system.classes(), node, system.handlers(), writer)
        }
        Owner::Client(_) => Ok(()),
    }
}

// The handlers of a node, each with its class.
fn print_handlers<W: Write>(
    alloc: Global,
    classes: &[OwnClass],
    node: u32,
    handlers: &[HandlerPlace],
    writer: &mut W,
) -> io::Result<()>
    ensures { OnOk result (Appends (W.contents writer.old) (W.contents writer.new) (handler_lines classes.now node handlers.now)) }
{
    match handlers {
        [] => Ok(()),
        [first, rest @ ..] => {
            if first.node == node {
                print_handler(alloc, classes, first, writer)?;
            }
            print_handlers(alloc, classes, node, rest, writer)
        }
    }
}

fn print_handler<W: Write>(
    alloc: Global,
    classes: &[OwnClass],
    place: &HandlerPlace,
    writer: &mut W,
) -> io::Result<()>
    ensures { OnOk result (Appends (W.contents writer.old) (W.contents writer.new) (handler_line classes.now place.now)) }
{
    let handler = place.handler;
    write!(writer, "handler.{handler} = \"")?;
    print_class_line(alloc, classes, place.class, writer)?;
    writer.write_all(b"\"\n")
}

// The name of a known class, or all of a class of the system's own.
fn print_class_line<W: Write>(
    alloc: Global,
    classes: &[OwnClass],
    class: HandlerClass,
    writer: &mut W,
) -> io::Result<()>
    ensures { OnOk result (Appends (W.contents writer.old) (W.contents writer.new) (class_line classes.now class)) }
{
    match class {
        HandlerClass::Known(class) => writer.write_all(class.name().as_bytes()),
        HandlerClass::Own(name) => print_own(alloc, own_class(classes, name.as_bytes()), writer),
    }
}

fn own_class<'a>(classes: &'a [OwnClass], name: &[u8]) -> Option<&'a OwnClass>
    ensures { option_copied result ≡ class_named classes.now name.now }
{
    classes.iter().find(|class| class.name().as_bytes() == name)
}

// A class in one line: a semicolon stands for the end of each of its lines.
fn print_own<W: Write>(alloc: Global, class: Option<&OwnClass>, writer: &mut W) -> io::Result<()>
    ensures { OnOk result (Appends (W.contents writer.old) (W.contents writer.new) (own_class_text (option_copied class.entry))) }
{
    let Some(class) = class else {
        return Ok(());
    };
    let mut lines = Vec::new(alloc);
    print_class(class, &mut lines)?;
    join_lines(lines.as_mut_slice());
    writer.write_all(lines.as_slice())
}

fn join_lines(text: &mut [u8])
    ensures { text.new ≡ map joined text.old }
{
    for byte in text.iter_mut() {
        *byte = joined(*byte);
    }
}

fn joined(byte: u8) -> u8
    ensures { result ≡ joined byte }
{
    if byte == b'\n' { b';' } else { byte }
}
