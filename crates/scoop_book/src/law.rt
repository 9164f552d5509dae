//! `==` on the data of this crate.

ghost use Rattle.std.specs.Prelude.{◌≡◌, ◌↔◌, IsTrue};

use crate::event::{Event, Reply};

/// `==` decides whether two events are the same, the messages in them included.
pub fn same_event(left: &Event, right: &Event) -> bool
    ensures { IsTrue result ↔ (left.now ≡ right.now) }
{
    left == right
}

/// `==` decides whether two replies are the same, the messages, entries and answers in them included.
pub fn same_reply(left: &Reply, right: &Reply) -> bool
    ensures { IsTrue result ↔ (left.now ≡ right.now) }
{
    left == right
}
