//! A handler's reply to a message, with a note.

ghost use Rattle.std.specs.Prelude.{Some};

use scoop_message::{Block, Message};
use std::fmt;

/// Why a message was dropped. Printed as its name.
#[derive(Clone, Copy, Debug, PartialEq, Eq)]
pub enum Reason {
    /// It is of a kind that goes to clients.
    NotForHandlers,
    /// It is for another handler.
    WrongHandler,
    /// It greets for a client that has no mark, and there are `MAX_MARKS` marks.
    TooManyClients,
    /// The client has sent a newer greeting or asked something for a newer block, or the block is past
    /// asking for the lock.
    Stale,
    /// This incarnation of the client has not greeted.
    Ungreeted,
    /// The block doesn't hold the lock.
    NotHolder,
    /// The handler has no room for another private queue.
    QueueFull,
    /// The block has no private queue that takes the entries, or no number left for them.
    NotOpen,
    /// An earlier entry of the block was not received.
    Gap,
    /// The block's private queue has no room for the entries.
    PendingFull,
}

impl fmt::Display for Reason {
    ghost use Rattle.scoop_handler.specs.Text.{reason_text};

    ghost output = { λ why. Some (reason_text why) };

    fn fmt<W: fmt::Write>(&self, f: &mut fmt::Formatter<W>) -> fmt::Result {
        f.write_str(match self {
            Reason::NotForHandlers => "NotForHandlers",
            Reason::WrongHandler => "WrongHandler",
            Reason::TooManyClients => "TooManyClients",
            Reason::Stale => "Stale",
            Reason::Ungreeted => "Ungreeted",
            Reason::NotHolder => "NotHolder",
            Reason::QueueFull => "QueueFull",
            Reason::NotOpen => "NotOpen",
            Reason::Gap => "Gap",
            Reason::PendingFull => "PendingFull",
        })
    }
}

/// The effect of a message on a handler. Printed as its name; a number of entries or a reason follows.
#[derive(Clone, Copy, Debug, PartialEq, Eq)]
pub enum Note {
    /// The client, or a newer incarnation of it, has been greeted.
    Greeted,
    /// The block was granted the lock.
    Granted,
    /// The block didn't get the lock.
    Held,
    /// The block has got a private queue.
    Opened(Block),
    /// The block doesn't hold the lock any more.
    Freed,
    /// The block's entries up to this number are received.
    Took(u32),
    /// The message asks for what holds already. Nothing changes, and the handler replies.
    Known,
    /// The message changed nothing and gets no reply.
    Dropped(Reason),
}

impl fmt::Display for Note {
    ghost use Rattle.scoop_handler.specs.Text.{note_text};

    ghost output = { λ note. Some (note_text note) };

    fn fmt<W: fmt::Write>(&self, f: &mut fmt::Formatter<W>) -> fmt::Result {
        match self {
            Note::Greeted => f.write_str("Greeted"),
            Note::Granted => f.write_str("Granted"),
            Note::Held => f.write_str("Held"),
            Note::Opened(_) => f.write_str("Opened"),
            Note::Freed => f.write_str("Freed"),
            Note::Took(number) => write!(f, "Took {number}"),
            Note::Known => f.write_str("Known"),
            Note::Dropped(why) => write!(f, "Dropped {why}"),
        }
    }
}

/// The reply to a message, with a note.
#[derive(Clone, Copy, Debug, PartialEq, Eq)]
pub struct Heard {
    /// The message to send back to the client, if any.
    pub reply: Option<Message>,
    pub note: Note,
}
