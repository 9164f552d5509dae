//! A history of events, packed.

ghost use Rattle.std.specs.Prelude.{◌≡◌, ◌≤◌, ◌↔◌, ◌++◌, ◌∷◌, [], IsTrue, OnOk, IfOk, IfNone, IfSome, length};
ghost use Rattle.scoop_book.specs.Lines.{IsMoved, entry_of};
ghost use Rattle.scoop_book.specs.declared.history.writing.TheConstants.{MAX_LINE};

mod reading;
mod writing;

use crate::event::{Event, Reply};
use reading::{line_from, skip_moved};
use scoop_handler::Heard;
use scoop_message::{Entry, Message, OutOfMemory, Request};
use scoop_packed::Reader;
use std::alloc::{Allocator, Global};
use std::marker::Model;
use writing::{MAX_LINE, put_heard_line, put_line};

/// Events, oldest first, each with the number of the pass that made it and its reply. They are packed as words of 32
/// bits, so that an entry takes only the memory that its kind needs. Contracts see the entries, and the room for more.
#[derive(Drop)]
pub struct History<A: Allocator = Global> {
    words: Vec<u32, A>,
    count: usize,
}

impl<A: Allocator> Model for History<A> {
    ghost use Rattle.std.specs.Prelude.{◌-◌, vec_len, vec_capacity};
    ghost use Rattle.scoop_book.specs.Lines.{HistoryValue, IsPacked, history_value, lines};

    ghost Value = { HistoryValue };

    ghost view = { λ h. history_value (lines h.count h.words.items) (vec_capacity h.words - vec_len h.words) };

    ghost invariant = { λ h. IsPacked h.count h.words.items };
}

/// Reads the entries of a history, oldest first. Contracts see the entries that are left.
#[derive(Drop)]
pub struct HistoryReader<'a> {
    words: Reader<'a>,
    left: usize,
}

impl<'a> Model for HistoryReader<'a> {
    ghost use Rattle.std.specs.Prelude.{List};
    ghost use Rattle.scoop_book.specs.Moves.{Entry as HistoryEntry};
    ghost use Rattle.scoop_book.specs.Lines.{IsPacked, lines};

    ghost Value = { List HistoryEntry };

    ghost view = { λ r. lines r.left r.words };

    ghost invariant = { λ r. IsPacked r.left r.words };
}

impl<'a> HistoryReader<'a> {
    /// The next entry, if one is left.
    pub fn next_entry(&mut self) -> Option<(u32, Event, Reply)>
        ensures some { IfSome result (λ e. self.old ≡ e ∷ self.new) }
        ensures none { IfNone result (self.old ≡ []) }
        ensures end { IfNone result (self.new ≡ []) }
    {
        if self.left == 0 {
            return None;
        }
        self.left -= 1;
        Some(line_from(&mut self.words))
    }

    /// The number of the next entry's pass, and the words of its event and its reply, if an entry is left.
    pub(crate) fn next_words(&mut self) -> Option<(u32, &'a [u32])>
        ensures some { IfSome result (λ l. self.old ≡ entry_of l.0 l.1.now ∷ self.new) }
        ensures moved { IfSome result (λ l. IsMoved l.1.now) }
        ensures none { IfNone result (self.old ≡ []) }
        ensures end { IfNone result (self.new ≡ []) }
    {
        if self.left == 0 {
            return None;
        }
        self.left -= 1;
        let pass = self.words.word();
        let words = self.words.rest();
        skip_moved(&mut self.words);
        let len = words.len() - self.words.rest().len();
        Some((pass, &words[..len]))
    }
}

impl<A: Allocator + Copy> History<A> {
    /// Makes a history with no entries.
    pub(crate) fn new(alloc: A) -> History<A>
        ensures { result.entries ≡ [] }
    {
        History {
            words: Vec::new(alloc),
            count: 0,
        }
    }

    /// How many entries there are.
    pub fn len(&self) -> usize
        ensures { result ≡ length self.now.entries }
    {
        self.count
    }

    pub fn is_empty(&self) -> bool
        ensures { IsTrue result ↔ (self.now.entries ≡ []) }
    {
        self.count == 0
    }

    /// Makes room for one more entry. The list grows by an eighth, so that little of its memory is unused.
    pub(crate) fn make_room(&mut self) -> Result<(), OutOfMemory>
        ensures entries { self.new.entries ≡ self.old.entries }
        ensures room { OnOk result (MAX_LINE ≤ self.new.room) }
    {
        let len = self.words.len();
        if self.words.capacity() - len < MAX_LINE {
            self.words.reserve_exact(MAX_LINE.saturating_add(len / 8))?;
        }
        Ok(())
    }

    /// Enters an event. There is room for it.
    pub(crate) fn enter(&mut self, pass: u32, event: &Event, reply: &Reply)
        requires { MAX_LINE ≤ self.old.room }
        ensures { self.new.entries ≡ self.old.entries ++ (pass, event.now, reply.now) ∷ [] }
    {
        put_line(&mut self.words, pass, event, reply);
        self.count += 1;
    }

    /// Enters a message that was heard, and what it did. There is room for it.
    pub(crate) fn enter_heard(&mut self, pass: u32, message: &Message, heard: &Heard)
        requires { MAX_LINE ≤ self.old.room }
        ensures { self.new.entries ≡ self.old.entries ++ (pass, Event.Hear message.now, Reply.Heard heard.now) ∷ [] }
    {
        put_heard_line(&mut self.words, pass, message, heard);
        self.count += 1;
    }

    /// A reader of the entries.
    pub fn reader(&self) -> HistoryReader<'_>
        ensures { result ≡ self.now.entries }
    {
        HistoryReader {
            words: Reader::new(&self.words),
            left: self.count,
        }
    }

    /// The entries as a list that isn't packed.
    pub fn to_vec<C: Allocator + Copy>(
        &self,
        alloc: C,
    ) -> Result<Vec<(u32, Event, Reply), C>, OutOfMemory>
        ensures { IfOk result (λ entries. entries.items ≡ self.now.entries) }
    {
        // Names the types that a reply holds, for the prover.
        let _parts: Option<(Entry, Request)> = None;
        let mut entries = Vec::new(alloc);
        let mut reader = self.reader();
        while let Some(entry) = reader.next_entry() {
            entries.push(entry)?;
        }
        Ok(entries)
    }
}
