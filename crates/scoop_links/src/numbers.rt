//! The numbers of handlers in a line.

ghost use Rattle.std.specs.Prelude.{◌≡◌, OnOk};
ghost use Rattle.std.specs.Io.KnownBytes.{Appends};
ghost use Rattle.scoop_links.specs.Texts.{numbers_text};

use scoop_message::HandlerId;
use std::io;
use std::io::Write;

/// Writes numbers in decimal, with a space before each. Refused as the writer refuses.
pub fn print_numbers<W: Write>(numbers: &[HandlerId], writer: &mut W) -> io::Result<()>
    ensures { OnOk result (Appends (W.contents writer.old) (W.contents writer.new) (numbers_text numbers.now)) }
{
    match numbers {
        [] => Ok(()),
        [first, rest @ ..] => {
            write!(writer, " {first}")?;
            print_numbers(rest, writer)
        }
    }
}
