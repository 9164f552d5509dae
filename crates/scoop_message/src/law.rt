//! Laws of `==` on this crate's data.

ghost use Rattle.std.specs.Prelude.{◌≡◌, ◌↔◌, IsTrue};

use crate::message::Message;
use crate::words::Words;

/// `==` decides whether two messages are the same, including their blocks, entries and answers.
pub fn same_message(left: &Message, right: &Message) -> bool
    ensures { IsTrue result ↔ (left.now ≡ right.now) }
{
    left == right
}

/// `==` decides whether two objects' words are the same.
pub fn same_words(left: &Words, right: &Words) -> bool
    ensures { IsTrue result ↔ (left.now ≡ right.now) }
{
    left == right
}
