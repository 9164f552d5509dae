//! The laws of `==` on events and notes.

ghost use Rattle.std.specs.Prelude.{◌≡◌, ◌↔◌, IsTrue};

use crate::event::Event;
use crate::note::WorldNote;

/// Returns true exactly if two events are the same, including the commands and requests in them.
pub fn same_event(event: &Event, other: &Event) -> bool
    ensures { IsTrue result ↔ (event.now ≡ other.now) }
{
    event == other
}

/// Returns true exactly if two notes are the same, including the entries and answers in them.
pub fn same_note(note: &WorldNote, other: &WorldNote) -> bool
    ensures { IsTrue result ↔ (note.now ≡ other.now) }
{
    note == other
}
