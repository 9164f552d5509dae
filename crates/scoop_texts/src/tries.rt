//! Notes on the tries of a waiting block.

ghost use Rattle.std.specs.Prelude.{◌≡◌, OnOk};
ghost use Rattle.std.specs.Io.KnownBytes.{Appends};
ghost use Rattle.scoop_texts.specs.Typing.{tried_note, tried_text};

use crate::typing::send_out;
use std::io;
use std::io::Write;

// Writes how many tries of the block failed.
fn print_tried<N: Write>(tried: u32, notes: &mut N) -> io::Result<()>
    ensures { OnOk result (Appends (N.contents notes.old) (N.contents notes.new) (tried_text tried)) }
{
    writeln!(
        notes,
        "scoop: the condition failed in {tried} tries, and the client tries again"
    )
}

// The same if a user types. A script gets no note.
fn print_tried_note<N: Write>(tried: u32, is_typed: bool, notes: &mut N) -> io::Result<()>
    ensures { OnOk result (Appends (N.contents notes.old) (N.contents notes.new) (tried_note is_typed tried)) }
{
    if is_typed {
        print_tried(tried, notes)
    } else {
        Ok(())
    }
}

/// Writes to a user who types how many tries of the block failed, and flushes. A note that can't be written is lost.
pub fn tell_tried<N: Write>(tried: u32, is_typed: bool, notes: &mut N) {
    let written = print_tried_note(tried, is_typed, notes);
    send_out(written, notes);
}
