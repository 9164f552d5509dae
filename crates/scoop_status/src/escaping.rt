//! Text in HTML.

ghost use Rattle.std.specs.Prelude.{◌≡◌, OnOk};
ghost use Rattle.std.specs.Io.KnownBytes.{Appends};
ghost use Rattle.scoop_status.specs.Escaped.{escaped, escaped_byte};

use std::io;
use std::io::Write;

// Writes the text that stands for a byte.
fn print_byte<W: Write>(byte: u8, writer: &mut W) -> io::Result<()>
    ensures { OnOk result (Appends (W.contents writer.old) (W.contents writer.new) (escaped_byte byte)) }
{
    match byte {
        b'&' => writer.write_all(b"&amp;"),
        b'<' => writer.write_all(b"&lt;"),
        b'>' => writer.write_all(b"&gt;"),
        b'"' => writer.write_all(b"&quot;"),
        byte => writer.write_all(&[byte]),
    }
}

/// Writes a short text so that a browser shows it, whatever it has: no byte of it ends a tag, an attribute or an element.
pub(crate) fn print_escaped<W: Write>(text: &[u8], writer: &mut W) -> io::Result<()>
    ensures { OnOk result (Appends (W.contents writer.old) (W.contents writer.new) (escaped text.now)) }
{
    match text {
        [] => Ok(()),
        [first, rest @ ..] => {
            print_byte(*first, writer)?;
            print_escaped(rest, writer)
        }
    }
}
