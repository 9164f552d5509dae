//! The messages between clients and handlers.

ghost use Rattle.std.specs.Prelude.{◌≡◌, ◌↔◌, ◌<◌, ◌≤◌, ◌+◌, ◌^◌, IsTrue};

use crate::entries::Entries;
use crate::limits::MAX_ENTRIES;
use crate::name::{Block, ClientId, HandlerId};
use crate::request::Answer;

/// A message between a client and a handler.
#[derive(Clone, Copy, Debug, PartialEq, Eq)]
pub enum Message {
    /// A client greets a handler, with its incarnation.
    Hello(HandlerId, ClientId, u32),
    /// The handler knows the client's incarnation.
    Welcome(HandlerId, ClientId, u32),
    /// The block asks for the handler's lock.
    Lock(HandlerId, Block),
    /// The block holds the lock.
    Locked(HandlerId, Block),
    /// The block doesn't get the lock now: another block holds it, or the client's last block is unfinished.
    Busy(HandlerId, Block),
    /// The block asks for a private queue.
    Open(HandlerId, Block),
    /// The block has a private queue.
    Opened(HandlerId, Block),
    /// The block gives the lock back.
    Unlock(HandlerId, Block),
    /// The block doesn't hold the lock any more.
    Unlocked(HandlerId, Block),
    /// Entries for the block's private queue, with the number of the first.
    Log(HandlerId, Block, u32, Entries),
    /// How many entries of the block the handler has received.
    Logged(HandlerId, Block, u32),
    /// The answer to the block's query of that number.
    Answer(HandlerId, Block, u32, Answer),
}

// Whether a number and the `count - 1` numbers after it have 32 bits.
fn fit_behind(number: u32, count: usize) -> bool
    requires { count ≤ MAX_ENTRIES }
    ensures { IsTrue result ↔ (number + count ≤ 2 ^ 32) }
{
    u64::from(number) + count as u64 <= 1 << 32
}

impl Message {
    ghost use Rattle.scoop_message.specs.Message.{handler_of, client_of, inc_of, is_for_handler, Fits};

    /// The handler that the message goes to or comes from.
    pub fn handler(&self) -> HandlerId
        ensures { result ≡ handler_of self.now }
    {
        match self {
            Message::Hello(handler, _, _)
            | Message::Welcome(handler, _, _)
            | Message::Lock(handler, _)
            | Message::Locked(handler, _)
            | Message::Busy(handler, _)
            | Message::Open(handler, _)
            | Message::Opened(handler, _)
            | Message::Unlock(handler, _)
            | Message::Unlocked(handler, _)
            | Message::Log(handler, _, _, _)
            | Message::Logged(handler, _, _)
            | Message::Answer(handler, _, _, _) => *handler,
        }
    }

    /// The client that the message goes to or comes from. If the message names a block, it is the block's client.
    pub fn client(&self) -> ClientId
        ensures { result ≡ client_of self.now }
    {
        match self {
            Message::Hello(_, client, _) | Message::Welcome(_, client, _) => *client,
            Message::Lock(_, block)
            | Message::Locked(_, block)
            | Message::Busy(_, block)
            | Message::Open(_, block)
            | Message::Opened(_, block)
            | Message::Unlock(_, block)
            | Message::Unlocked(_, block)
            | Message::Log(_, block, _, _)
            | Message::Logged(_, block, _)
            | Message::Answer(_, block, _, _) => block.client,
        }
    }

    /// The client's incarnation.
    pub fn inc(&self) -> u32
        ensures { result ≡ inc_of self.now }
    {
        match self {
            Message::Hello(_, _, inc) | Message::Welcome(_, _, inc) => *inc,
            Message::Lock(_, block)
            | Message::Locked(_, block)
            | Message::Busy(_, block)
            | Message::Open(_, block)
            | Message::Opened(_, block)
            | Message::Unlock(_, block)
            | Message::Unlocked(_, block)
            | Message::Log(_, block, _, _)
            | Message::Logged(_, block, _)
            | Message::Answer(_, block, _, _) => block.inc,
        }
    }

    /// Whether the message goes from a client to a handler.
    pub fn for_handler(&self) -> bool
        ensures { result ≡ is_for_handler self.now }
    {
        matches!(
            self,
            Message::Hello(..)
                | Message::Lock(..)
                | Message::Open(..)
                | Message::Unlock(..)
                | Message::Log(..)
        )
    }

    /// Whether each incarnation, block and entry number in the message is at least 1, and the number
    /// of a Log's last entry is at most 2^32-1.
    pub fn fits(&self) -> bool
        ensures { IsTrue result ↔ Fits self.now }
    {
        match self {
            Message::Hello(_, _, inc) | Message::Welcome(_, _, inc) => *inc >= 1,
            Message::Lock(_, block)
            | Message::Locked(_, block)
            | Message::Busy(_, block)
            | Message::Open(_, block)
            | Message::Opened(_, block)
            | Message::Unlock(_, block)
            | Message::Unlocked(_, block) => block.is_numbered(),
            Message::Log(_, block, number, entries) => {
                block.is_numbered() && *number >= 1 && fit_behind(*number, entries.len())
            }
            Message::Logged(_, block, number) | Message::Answer(_, block, number, _) => {
                block.is_numbered() && *number >= 1
            }
        }
    }
}
