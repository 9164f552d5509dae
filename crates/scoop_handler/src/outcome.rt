//! The effect of a message on a handler, without the names that the message has. Several functions pass it on, so it is
//! small: a message has room for the entries of a Log.

ghost use Rattle.std.specs.Prelude.{◌≡◌, Some, None};
ghost use Rattle.scoop_handler.specs.Outcomes.{asked_block, heard_about, reply_about};

use crate::note::{Heard, Note, Reason};
use scoop_message::{Answer, Block, HandlerId, Message};

/// A reply without the handler and the block that it names.
#[derive(Clone, Copy)]
pub(crate) enum ReplyKind {
    Welcome,
    Locked,
    Busy,
    Opened,
    Unlocked,
    Logged(u32),
    Answer(u32, Answer),
}

/// A reply to a message, if there is one, and the note.
#[derive(Clone, Copy)]
pub(crate) struct Outcome {
    reply: Option<ReplyKind>,
    note: Note,
}

impl ReplyKind {
    // The reply of this handler about this block.
    fn message(self, handler: HandlerId, block: Block) -> Message
        ensures { result ≡ reply_about handler block self }
    {
        match self {
            ReplyKind::Welcome => Message::Welcome(handler, block.client, block.inc),
            ReplyKind::Locked => Message::Locked(handler, block),
            ReplyKind::Busy => Message::Busy(handler, block),
            ReplyKind::Opened => Message::Opened(handler, block),
            ReplyKind::Unlocked => Message::Unlocked(handler, block),
            ReplyKind::Logged(number) => Message::Logged(handler, block, number),
            ReplyKind::Answer(number, answer) => Message::Answer(handler, block, number, answer),
        }
    }
}

impl Outcome {
    pub(crate) fn replied(reply: ReplyKind, note: Note) -> Outcome
        ensures { result ≡ record { reply = Some reply; note = note } }
    {
        Outcome {
            reply: Some(reply),
            note,
        }
    }

    pub(crate) fn dropped(why: Reason) -> Outcome
        ensures { result ≡ record { reply = None; note = Note.Dropped why } }
    {
        Outcome {
            reply: None,
            note: Note::Dropped(why),
        }
    }

    /// The reply of this handler about this block, with the note.
    pub(crate) fn heard(self, handler: HandlerId, block: Block) -> Heard
        ensures { result ≡ heard_about handler block self }
    {
        let Outcome { reply, note } = self;
        match reply {
            Some(kind) => Heard {
                reply: Some(kind.message(handler, block)),
                note,
            },
            None => Heard { reply: None, note },
        }
    }
}

/// The block that a message is about. A greeting is about one that has no number yet.
pub(crate) fn asked_block(message: &Message) -> Block
    ensures { result ≡ asked_block message.now }
{
    match message {
        Message::Hello(_, client, inc) | Message::Welcome(_, client, inc) => Block {
            client: *client,
            inc: *inc,
            num: 0,
        },
        Message::Lock(_, block)
        | Message::Locked(_, block)
        | Message::Busy(_, block)
        | Message::Open(_, block)
        | Message::Opened(_, block)
        | Message::Unlock(_, block)
        | Message::Unlocked(_, block)
        | Message::Log(_, block, _, _)
        | Message::Logged(_, block, _)
        | Message::Answer(_, block, _, _) => *block,
    }
}
