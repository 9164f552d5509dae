//! The entries that a client has logged at one handler.

ghost use Rattle.std.specs.Prelude.{◌≡◌, ◌+◌, ◌≤◌, ◌<◌, ◌^◌, ◌∷◌, length, IfOk, IfSome, IsTrue, false};
ghost use Rattle.scoop_message.specs.Message.{Fits, IsNumbered};
ghost use Rattle.scoop_message.specs.Entries.{EndOnlyLast};
ghost use Rattle.scoop_client.specs.Window.{fresh_window, logged, is_full, is_over, with_entry, with_end, acknowledged, up_to_end, first_entries};
ghost use Rattle.scoop_client.specs.Due.{due_log};

use scoop_message::limits::{MAX_ENTRIES, MAX_UNACKNOWLEDGED};
use scoop_message::{Block, Entries, Entry, HandlerId, Message};
use std::alloc::{AllocError, Allocator};
use std::marker::Model;

/// The window of one handler of a block: the logged entries that aren't acknowledged yet, oldest first. It has
/// room for a whole window, so logging takes no memory.
///
/// Contracts see the handler, how many entries are acknowledged, whether the End is logged, and the other entries.
#[derive(Drop)]
pub struct Window<A: Allocator> {
    handler: HandlerId,
    acked: u32,
    ended: bool,
    unacked: Vec<Entry, A>,
}

impl<A: Allocator> Model for Window<A> {
    ghost use Rattle.std.specs.Prelude.{◌≤◌, vec_capacity};
    ghost use Rattle.scoop_message.specs.declared.limits.TheConstants.{MAX_UNACKNOWLEDGED};
    ghost use Rattle.scoop_client.specs.Window.{WindowState, IsNumberable};

    ghost Value = { WindowState };

    ghost view = { λ l. record { handler = l.handler; acked = l.acked; ended = l.ended; unacked = l.unacked.items } };

    ghost invariant = { λ l. (MAX_UNACKNOWLEDGED ≤ vec_capacity l.unacked) × IsNumberable l.acked l.ended l.unacked.items };
}

// The entries up to the first End.
fn up_to_end(entries: &[Entry]) -> &[Entry]
    ensures { result.now ≡ up_to_end entries.now }
{
    for (i, entry) in entries.iter().enumerate() {
        if entry.is_end() {
            return &entries[..i + 1];
        }
    }
    entries
}

// The first entries, at most `batch`.
fn first_entries(entries: &[Entry], batch: usize) -> &[Entry]
    ensures { result.now ≡ first_entries batch entries.now }
{
    up_to_end(&entries[..batch.min(entries.len())])
}

impl<A: Allocator> Window<A> {
    /// A window without entries.
    pub(crate) fn new(alloc: A, handler: HandlerId) -> Result<Window<A>, AllocError>
        ensures { IfOk result (λ l. l ≡ fresh_window handler) }
    {
        Ok(Window {
            handler,
            acked: 0,
            ended: false,
            unacked: Vec::with_capacity(alloc, MAX_UNACKNOWLEDGED)?,
        })
    }

    pub(crate) fn handler(&self) -> HandlerId
        ensures { result ≡ self.now.handler }
    {
        self.handler
    }

    /// How many entries are acknowledged.
    pub(crate) fn acked(&self) -> u32
        ensures { result ≡ self.now.acked }
    {
        self.acked
    }

    /// The number of logged entries, which is that of the last one.
    pub(crate) fn logged(&self) -> u32
        ensures { result ≡ logged self.now }
    {
        self.acked + self.unacked.len() as u32
    }

    /// Whether the End is logged.
    pub fn is_ended(&self) -> bool
        ensures { result ≡ self.now.ended }
    {
        self.ended
    }

    /// The logged entries that aren't acknowledged, oldest first.
    pub fn unacked(&self) -> &[Entry]
        ensures { result.now ≡ self.now.unacked }
    {
        &self.unacked
    }

    /// Whether the window has no room for one more entry.
    pub(crate) fn is_full(&self) -> bool
        ensures { result ≡ is_full self.now }
    {
        self.unacked.len() >= MAX_UNACKNOWLEDGED
    }

    /// Whether the End is logged and acknowledged.
    pub(crate) fn is_over(&self) -> bool
        ensures { result ≡ is_over self.now }
    {
        self.ended && self.unacked.is_empty()
    }

    /// Logs a call or a query, whose number leaves one for the End.
    pub(crate) fn log(&mut self, entry: Entry)
        requires room { is_full self.old ≡ false }
        requires number { logged self.old + 2 < 2 ^ 32 }
        ensures { self.new ≡ with_entry entry self.old }
    {
        self.unacked.push_reserved(entry);
    }

    /// Logs the End.
    pub(crate) fn end(&mut self)
        requires room { is_full self.old ≡ false }
        requires open { self.old.ended ≡ false }
        ensures { self.new ≡ with_end self.old }
    {
        self.unacked.push_reserved(Entry::End);
        self.ended = true;
    }

    /// Drops the entries up to this number, which are acknowledged.
    pub(crate) fn acknowledge(&mut self, number: u32)
        ensures { self.new ≡ acknowledged number self.old }
    {
        let newly = (number.saturating_sub(self.acked) as usize).min(self.unacked.len());
        self.unacked.drain(..newly);
        self.acked += newly as u32;
    }

    /// The Log of the first entries that aren't acknowledged.
    pub(crate) fn due(&self, block: Block, batch: u8) -> Option<Message>
        requires some { 1 ≤ batch }
        requires limit { batch ≤ MAX_ENTRIES }
        ensures value { result ≡ due_log batch block self.now }
        ensures fits { IsNumbered block → IfSome result Fits }
    {
        if self.unacked.is_empty() {
            return None;
        }
        let first = first_entries(&self.unacked, usize::from(batch));
        match Entries::of(first) {
            Ok(entries) => Some(Message::Log(self.handler, block, self.acked + 1, entries)),
            Err(_) => None,
        }
    }
}
