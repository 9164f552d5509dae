//! The lines of a journal.

ghost use Rattle.std.specs.Prelude.{◌↔◌, IsTrue, IfSome};
ghost use Rattle.scoop_message.specs.Message.{Fits};

use crate::words::is_hex;
use scoop_client::Command;
use scoop_frame::Version;
use scoop_message::{ClientId, HandlerId, Message};

/// The result of the receive in a client's turn.
#[derive(Clone, Copy, Debug, PartialEq, Eq)]
pub enum Arrival {
    /// Nothing came.
    Nothing,
    /// The frame of this message, in this version.
    Frame(Version, Message),
    /// A datagram that is no frame. The journal doesn't keep its bytes.
    NoFrame,
    /// The link failed.
    Fault,
}

/// A line of a journal.
#[derive(Clone, Copy, Debug, PartialEq, Eq)]
pub enum Line<'a> {
    /// A life of the node of this number begins.
    NodeLife(u32),
    /// A life of this client begins: its incarnation, and how many entries it puts into one Log.
    ClientLife(ClientId, u32, u8),
    /// The state of this handler when a node's life begins: the two blobs of its row in a store, in lower-case hex digits.
    Open(HandlerId, &'a [u8], &'a [u8]),
    /// A handler heard this message, and replied this. Both stand there as frames of version 2.
    Hear(Message, Option<Message>),
    /// An entry of this handler left to be run.
    Begin(HandlerId),
    /// The entry of this handler that left has run.
    Finish(HandlerId),
    /// The client took this command.
    Do(Command),
    /// The client sent all that was due, and then received this.
    Turn(Arrival),
    /// The client's send to the handler at this place, counted from 0, failed.
    Broke(usize),
}

impl Arrival {
    ghost use Rattle.scoop_journal.specs.Line.{FitsArrival};

    /// Whether the frame's message fits and its version carries it.
    pub fn fits(&self) -> bool
        ensures { IsTrue result ↔ FitsArrival self.now }
    {
        match self {
            Arrival::Frame(version, message) => message.fits() && version.carries(message),
            Arrival::Nothing | Arrival::NoFrame | Arrival::Fault => true,
        }
    }
}

impl Line<'_> {
    ghost use Rattle.scoop_journal.specs.Line.{FitsLine};

    /// Whether the line can be written: its messages have frames, and its blobs are hex digits in lower case, two for each
    /// byte.
    pub fn fits(&self) -> bool
        ensures { IsTrue result ↔ FitsLine self.now }
    {
        match self {
            Line::Open(_, image, pending) => is_hex(image) && is_hex(pending),
            Line::Hear(heard, reply) => heard.fits() && reply_fits(reply),
            Line::Turn(arrival) => arrival.fits(),
            Line::NodeLife(_) | Line::ClientLife(..) => true,
            Line::Begin(_) | Line::Finish(_) => true,
            Line::Do(_) | Line::Broke(_) => true,
        }
    }
}

// Whether a reply has a frame, if there is one.
fn reply_fits(reply: &Option<Message>) -> bool
    ensures { IsTrue result ↔ IfSome reply.now Fits }
{
    match reply {
        Some(reply) => reply.fits(),
        None => true,
    }
}
