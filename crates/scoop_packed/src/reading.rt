//! Words of 32 bits, read back.

ghost use Rattle.std.specs.Prelude.{◌≡◌, ◌≤◌, length};
ghost use Rattle.scoop_message.specs.declared.limits.TheConstants.{MAX_ARGS, MAX_ENTRIES};
ghost use Rattle.scoop_packed.specs.Unpacked.{answer_at, block_at, bounded, entries_at, given_at, logged_at, long_at, message_at, note_at};
ghost use Rattle.scoop_packed.specs.Unpacked.{plain_note, ran_at, reads, request_at, short_at, whole, word_at};

use crate::writing::HALF;
use scoop_handler::{Note, Ran, Reason};
use scoop_message::limits::{MAX_ARGS, MAX_ENTRIES};
use scoop_message::{Answer, Args, Block, ClientId, Entries, Entry, HandlerId, Message, Request};
use std::marker::Model;

/// Reads words one after another. Contracts see the words that are left.
#[derive(Drop)]
pub struct Reader<'a> {
    left: &'a [u32],
}

impl<'a> Model for Reader<'a> {
    ghost use Rattle.std.specs.Prelude.{ℕ, List};

    ghost Value = { List ℕ };

    ghost view = { λ r. r.left.now };
}

// The number, or 0 if it is past the limit.
pub(crate) fn bounded(limit: u32, number: u32) -> u32
    ensures value { result ≡ bounded limit number }
    ensures limit { result ≤ limit }
{
    if number <= limit { number } else { 0 }
}

// These entries, or an End if no Log may have them. The words of a Log are always read as its entries.
fn whole(entries: &[Entry]) -> Entries
    ensures { result ≡ whole entries.now }
{
    match Entries::of(entries) {
        Ok(entries) => entries,
        Err(_) => Entries::of(&[Entry::End]).unwrap(),
    }
}

fn short(kind: u32, handler: HandlerId, block: Block) -> Message
    ensures { result ≡ short_at kind handler block }
{
    match kind {
        0 => Message::Hello(handler, block.client, block.inc),
        1 => Message::Welcome(handler, block.client, block.inc),
        2 => Message::Lock(handler, block),
        3 => Message::Locked(handler, block),
        4 => Message::Busy(handler, block),
        5 => Message::Open(handler, block),
        6 => Message::Opened(handler, block),
        7 => Message::Unlock(handler, block),
        _ => Message::Unlocked(handler, block),
    }
}

fn plain_note(kind: u32) -> Note
    ensures { result ≡ plain_note kind }
{
    match kind {
        0 => Note::Greeted,
        1 => Note::Granted,
        2 => Note::Held,
        4 => Note::Freed,
        6 => Note::Known,
        7 => Note::Dropped(Reason::NotForHandlers),
        8 => Note::Dropped(Reason::WrongHandler),
        9 => Note::Dropped(Reason::TooManyClients),
        10 => Note::Dropped(Reason::Stale),
        11 => Note::Dropped(Reason::Ungreeted),
        12 => Note::Dropped(Reason::NotHolder),
        13 => Note::Dropped(Reason::QueueFull),
        14 => Note::Dropped(Reason::NotOpen),
        15 => Note::Dropped(Reason::Gap),
        _ => Note::Dropped(Reason::PendingFull),
    }
}

impl<'a> Reader<'a> {
    /// A reader of these words.
    pub fn new(words: &'a [u32]) -> Reader<'a>
        ensures { result ≡ words.now }
    {
        Reader { left: words }
    }

    /// The words that are left.
    pub fn rest(&self) -> &'a [u32]
        ensures { result.now ≡ self.now }
    {
        self.left
    }

    /// The next word, or 0 after the last.
    pub fn word(&mut self) -> u32
        ensures word { result ≡ (word_at self.old).0 }
        ensures left { self.new ≡ (word_at self.old).1 }
    {
        match self.left {
            [first, rest @ ..] => {
                self.left = rest;
                *first
            }
            [] => 0,
        }
    }

    fn long(&mut self) -> u64
        ensures long { result ≡ (long_at self.old).0 }
        ensures left { self.new ≡ (long_at self.old).1 }
    {
        let low = self.word();
        let high = self.word();
        u64::from(low) + u64::from(high) * HALF
    }

    /// The next block.
    pub fn block(&mut self) -> Block
        ensures block { result ≡ (block_at self.old).0 }
        ensures left { self.new ≡ (block_at self.old).1 }
    {
        let client = ClientId(self.word());
        let inc = self.word();
        let num = self.word();
        Block { client, inc, num }
    }

    // That many arguments.
    fn args(&mut self, count: usize) -> Args
        requires { count ≤ MAX_ARGS }
        ensures args { result ≡ (reads long_at count self.old).0 }
        ensures left { self.new ≡ (reads long_at count self.old).1 }
    {
        let mut numbers = [0; MAX_ARGS];
        for i in 0..count {
            numbers[i] = self.long();
        }
        Args::of(&numbers[..count]).unwrap()
    }

    fn request(&mut self) -> Request
        ensures request { result ≡ (request_at self.old).0 }
        ensures left { self.new ≡ (request_at self.old).1 }
    {
        let op = self.word();
        let count = self.word();
        let count = bounded(MAX_ARGS as u32, count) as usize;
        let args = self.args(count);
        let op = bounded(65535, op) as u16;
        Request { op, args }
    }

    fn logged(&mut self) -> Entry
        ensures entry { result ≡ (logged_at self.old).0 }
        ensures left { self.new ≡ (logged_at self.old).1 }
    {
        let kind = self.word();
        if kind == 0 {
            return Entry::End;
        }
        let request = self.request();
        if kind == 1 {
            Entry::Call(request)
        } else {
            Entry::Query(request)
        }
    }

    // That many entries.
    fn several(&mut self, count: usize) -> Entries
        requires { count ≤ MAX_ENTRIES }
        ensures entries { result ≡ whole (reads logged_at count self.old).0 }
        ensures left { self.new ≡ (reads logged_at count self.old).1 }
    {
        let mut cells = [Entry::End; MAX_ENTRIES];
        for i in 0..count {
            cells[i] = self.logged();
        }
        whole(&cells[..count])
    }

    fn entries(&mut self) -> Entries
        ensures entries { result ≡ (entries_at self.old).0 }
        ensures left { self.new ≡ (entries_at self.old).1 }
    {
        let count = self.word();
        let count = bounded(MAX_ENTRIES as u32, count) as usize;
        self.several(count)
    }

    // The answer of this kind.
    fn answer(&mut self, kind: u32) -> Answer
        ensures answer { result ≡ (answer_at kind self.old).0 }
        ensures left { self.new ≡ (answer_at kind self.old).1 }
    {
        if kind == 0 {
            Answer::Refused
        } else {
            Answer::Value(self.long())
        }
    }

    /// The message of this kind, which is the word in front of it.
    pub fn message(&mut self, kind: u32) -> Message
        ensures message { result ≡ (message_at kind self.old).0 }
        ensures left { self.new ≡ (message_at kind self.old).1 }
    {
        let handler = HandlerId(self.word());
        let block = self.block();
        if kind < 9 {
            return short(kind, handler, block);
        }
        let number = self.word();
        if kind == 9 {
            let entries = self.entries();
            return Message::Log(handler, block, number, entries);
        }
        if kind == 10 {
            return Message::Logged(handler, block, number);
        }
        let is = self.word();
        let answer = self.answer(is);
        Message::Answer(handler, block, number, answer)
    }

    /// The next note.
    pub fn note(&mut self) -> Note
        ensures note { result ≡ (note_at self.old).0 }
        ensures left { self.new ≡ (note_at self.old).1 }
    {
        let kind = self.word();
        if kind == 3 {
            return Note::Opened(self.block());
        }
        if kind == 5 {
            return Note::Took(self.word());
        }
        plain_note(kind)
    }

    fn given(&mut self) -> Option<Answer>
        ensures answer { result ≡ (given_at self.old).0 }
        ensures left { self.new ≡ (given_at self.old).1 }
    {
        let kind = self.word();
        if kind == 2 {
            return None;
        }
        Some(self.answer(kind))
    }

    /// The next entry that has run.
    pub fn ran(&mut self) -> Ran
        ensures ran { result ≡ (ran_at self.old).0 }
        ensures left { self.new ≡ (ran_at self.old).1 }
    {
        let block = self.block();
        let number = self.word();
        let entry = self.logged();
        let answer = self.given();
        Ran {
            block,
            number,
            entry,
            answer,
        }
    }
}
