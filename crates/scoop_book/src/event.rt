//! Events at a handler, and their replies.

ghost use Rattle.std.specs.Prelude.{◌≡◌};
ghost use Rattle.scoop_book.specs.Moves.{handler_at};
ghost use Rattle.scoop_book.specs.Books.{IsHear};

use scoop_handler::{Heard, Ran};
use scoop_message::{Block, HandlerId, Message};

/// An event at one handler.
#[derive(Clone, Copy, Debug, PartialEq, Eq)]
pub enum Event {
    /// The handler that the message names hears it.
    Hear(Message),
    /// The handler's next entry leaves to be run, if it has one.
    Begin(HandlerId),
    /// The entry that left the handler has run.
    Finish(HandlerId),
}

/// The reply to an event.
#[derive(Clone, Copy, Debug, PartialEq, Eq)]
pub enum Reply {
    /// The handler's reply to the message.
    Heard(Heard),
    /// The block and the number of the entry that has left, if any.
    Began(Option<(Block, u32)>),
    /// The entry that has run.
    Finished(Ran),
}

impl Event {
    /// The handler at which the event happens.
    pub fn handler(&self) -> HandlerId
        ensures { result ≡ handler_at self.now }
    {
        match self {
            Event::Hear(message) => message.handler(),
            Event::Begin(handler) | Event::Finish(handler) => *handler,
        }
    }

    /// The message that is heard.
    pub(crate) fn message(&self) -> &Message
        requires { IsHear self.now }
        ensures { self.now ≡ Event.Hear result.now }
    {
        let Event::Hear(message) = self else {
            unreachable!()
        };
        message
    }
}
