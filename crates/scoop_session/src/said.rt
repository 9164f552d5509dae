//! The messages that a client has said.

ghost use Rattle.std.specs.Prelude.{◌≡◌, ◌++◌, IsTrue, OnOk};
ghost use Rattle.scoop_session.specs.Saying.{AreAmong, IsAmong, due_to};

use scoop_client::Client;
use scoop_message::{HandlerId, Message, OutOfMemory, same_message};
use std::alloc::Allocator;

// Whether the message is one of these.
fn is_among(said: &[Message], message: &Message) -> bool
    ensures { IsTrue result → IsAmong said.now message.now }
{
    match said {
        [] => false,
        [first, rest @ ..] => same_message(first, message) || is_among(rest, message),
    }
}

/// Whether each of the messages is one of those said before.
pub(crate) fn are_among(said: &[Message], messages: &[Message]) -> bool
    ensures { IsTrue result → AreAmong said.now messages.now }
{
    match messages {
        [] => true,
        [first, rest @ ..] => is_among(said, first) && are_among(said, rest),
    }
}

// Adds the messages that are due to these handlers.
fn add_due<A: Allocator>(
    found: &mut Vec<Message>,
    client: &Client<A>,
    handlers: &[HandlerId],
) -> Result<(), OutOfMemory>
    ensures { OnOk result (found.new.items ≡ found.old.items ++ due_to client.now handlers.now) }
{
    let [first, rest @ ..] = handlers else {
        return Ok(());
    };
    if let Some(message) = client.due(*first) {
        found.push(message)?;
    }
    add_due(found, client, rest)
}

/// Finds the messages that are due to the client's handlers, in place of those found before.
pub(crate) fn find_due<A: Allocator>(
    found: &mut Vec<Message>,
    client: &Client<A>,
) -> Result<(), OutOfMemory>
    ensures { OnOk result (found.new.items ≡ due_to client.now client.now.handlers) }
{
    found.clear();
    add_due(found, client, client.handlers())
}
