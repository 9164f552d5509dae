//! Values that are left out, without being made.

ghost use Rattle.std.specs.Prelude.{◌≡◌};
ghost use Rattle.scoop_packed.specs.Unpacked.{answer_at, block_at, entries_at, given_at, logged_at, long_at, message_at, note_at};
ghost use Rattle.scoop_packed.specs.Unpacked.{ran_at, reads, request_at};

use crate::reading::{Reader, bounded};
use scoop_message::limits::{MAX_ARGS, MAX_ENTRIES};

impl<'a> Reader<'a> {
    fn skip_long(&mut self)
        ensures { self.new ≡ (long_at self.old).1 }
    {
        self.word();
        self.word();
    }

    fn skip_block(&mut self)
        ensures { self.new ≡ (block_at self.old).1 }
    {
        self.word();
        self.word();
        self.word();
    }

    // Leaves out that many arguments.
    fn skip_args(&mut self, count: usize)
        ensures { self.new ≡ (reads long_at count self.old).1 }
    {
        for _ in 0..count {
            self.skip_long();
        }
    }

    fn skip_logged(&mut self)
        ensures { self.new ≡ (logged_at self.old).1 }
    {
        if self.word() == 0 {
            return;
        }
        self.word();
        let count = self.word();
        let count = bounded(MAX_ARGS as u32, count) as usize;
        self.skip_args(count);
    }

    // Leaves out that many entries.
    fn skip_several(&mut self, count: usize)
        ensures { self.new ≡ (reads logged_at count self.old).1 }
    {
        for _ in 0..count {
            self.skip_logged();
        }
    }

    fn skip_entries(&mut self)
        ensures { self.new ≡ (entries_at self.old).1 }
    {
        let count = self.word();
        let count = bounded(MAX_ENTRIES as u32, count) as usize;
        self.skip_several(count);
    }

    // Leaves out the answer of this kind.
    fn skip_answer(&mut self, kind: u32)
        ensures { self.new ≡ (answer_at kind self.old).1 }
    {
        if kind != 0 {
            self.skip_long();
        }
    }

    /// Leaves out the message of this kind, which is the word in front of it.
    pub fn skip_message(&mut self, kind: u32)
        ensures { self.new ≡ (message_at kind self.old).1 }
    {
        self.word();
        self.skip_block();
        if kind < 9 {
            return;
        }
        self.word();
        if kind == 9 {
            self.skip_entries();
            return;
        }
        if kind == 10 {
            return;
        }
        let is = self.word();
        self.skip_answer(is);
    }

    /// Leaves out the next note.
    pub fn skip_note(&mut self)
        ensures { self.new ≡ (note_at self.old).1 }
    {
        let kind = self.word();
        if kind == 3 {
            self.skip_block();
        } else if kind == 5 {
            self.word();
        }
    }

    fn skip_given(&mut self)
        ensures { self.new ≡ (given_at self.old).1 }
    {
        let kind = self.word();
        if kind != 2 {
            self.skip_answer(kind);
        }
    }

    /// Leaves out the next entry that has run.
    pub fn skip_ran(&mut self)
        ensures { self.new ≡ (ran_at self.old).1 }
    {
        self.skip_block();
        self.word();
        self.skip_logged();
        self.skip_given();
    }
}
