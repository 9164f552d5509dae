//! The lines of a node.

ghost use Rattle.std.specs.Prelude.{◌≡◌, OnOk};
ghost use Rattle.std.specs.Io.KnownBytes.{Appends};
ghost use Rattle.scoop_texts.specs.NodeTexts.{closed_text, ready_text, reopened_text};

use scoop_links::print_numbers;
use scoop_message::HandlerId;
use scoop_system::NodePlace;
use std::io;
use std::io::Write;

/// Writes that a node is ready, with its address and its handlers.
pub fn print_ready<W: Write>(
    place: &NodePlace,
    handlers: &[HandlerId],
    writer: &mut W,
) -> io::Result<()>
    ensures { OnOk result (Appends (W.contents writer.old) (W.contents writer.new) (ready_text place.now handlers.now)) }
{
    let number = place.number;
    let address = place.address;
    write!(writer, "node {number} at {address}: handlers")?;
    print_numbers(handlers, writer)?;
    writer.write_all(b"\n")
}

/// Writes that a node was opened again after its history was full.
pub fn print_reopened<W: Write>(number: u32, writer: &mut W) -> io::Result<()>
    ensures { OnOk result (Appends (W.contents writer.old) (W.contents writer.new) (reopened_text number)) }
{
    writeln!(writer, "node {number} reopened")
}

/// Writes that a node is closed: its history matched its threads' records.
pub fn print_closed<W: Write>(number: u32, writer: &mut W) -> io::Result<()>
    ensures { OnOk result (Appends (W.contents writer.old) (W.contents writer.new) (closed_text number)) }
{
    writeln!(writer, "node {number} closed")
}
