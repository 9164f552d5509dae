//! An entry that runs outside its handler.

ghost use Rattle.std.specs.Prelude.{◌≡◌, ◌↔◌, IsTrue, Some, length};
ghost use Rattle.scoop_object.specs.Play.{entry_effect};
ghost use Rattle.scoop_handler.specs.Running.{ran_of, task_effect, task_with};

use crate::ran::Ran;
use scoop_message::{Answer, Block, Entry, HandlerId, Words};
use scoop_object::{Behaviour, Class};
use std::marker::Model;

/// An object that has left its handler to run an entry. Contracts see that task.
#[derive(Drop)]
pub struct Job<B: Behaviour> {
    handler: HandlerId,
    block: Block,
    number: u32,
    entry: Entry,
    words: Words,
    object: B,
}

impl<B: Behaviour> Model for Job<B> {
    ghost use Rattle.std.specs.Prelude.{◌≡◌, length};
    ghost use Rattle.scoop_handler.specs.Running.{Task, task_with};

    ghost Value = { Task };

    ghost view = { λ j. task_with j.handler (j.block, j.number, j.entry) (B.class j.object) j.words };

    ghost invariant = { λ j. (B.words j.object ≡ j.words) × (length j.words ≡ (B.class j.object).words) };
}

/// A job that is done. Contracts see its task: its words and its answer are the task's effect.
#[derive(Drop)]
pub struct Done<B: Behaviour> {
    handler: HandlerId,
    ran: Ran,
    left: Words,
    object: B,
}

impl<B: Behaviour> Model for Done<B> {
    ghost use Rattle.std.specs.Prelude.{◌≡◌, length};
    ghost use Rattle.scoop_object.specs.Play.{entry_effect};
    ghost use Rattle.scoop_handler.specs.Running.{Task, task_with};

    ghost Value = { Task };

    ghost view = { λ d. task_with d.handler (d.ran.block, d.ran.number, d.ran.entry) (B.class d.object) d.left };

    ghost invariant = { λ d.
        (B.words d.object ≡ (entry_effect (B.class d.object) d.left d.ran.entry).0)
        × (d.ran.answer ≡ (entry_effect (B.class d.object) d.left d.ran.entry).1)
        × (length d.left ≡ (B.class d.object).words) };
}

/// Runs an entry on an object, and returns its answer, if it has one.
pub(crate) fn run_entry<B: Behaviour>(object: &mut B, entry: &Entry) -> Option<Answer>
    ensures class { B.class object.new ≡ B.class object.old }
    ensures words { B.words object.new ≡ (entry_effect (B.class object.old) (B.words object.old) entry.now).0 }
    ensures answer { result ≡ (entry_effect (B.class object.old) (B.words object.old) entry.now).1 }
{
    match entry {
        Entry::Call(request) => Some(object.apply(request)),
        Entry::Query(request) => Some(object.apply(request)),
        Entry::End => None,
    }
}

impl<B: Behaviour> Job<B> {
    /// An object that leaves its handler to run the first entry there, with the entry's block and number.
    pub(crate) fn new(
        handler: HandlerId,
        first: (Block, u32, Entry),
        words: Words,
        object: B,
    ) -> Job<B>
        requires words { B.words object ≡ words }
        requires fits { length words ≡ (B.class object).words }
        ensures { result ≡ task_with handler first (B.class object) words }
    {
        let (block, number, entry) = first;
        Job {
            handler,
            block,
            number,
            entry,
            words,
            object,
        }
    }

    /// The handler that the object left.
    pub fn handler(&self) -> HandlerId
        ensures { result ≡ self.now.handler }
    {
        self.handler
    }

    /// The block of the entry.
    pub fn block(&self) -> Block
        ensures { result ≡ self.now.block }
    {
        self.block
    }

    /// The entry's number in its private queue, counted from 1.
    pub fn number(&self) -> u32
        ensures value { result ≡ self.now.number }
        ensures fits { length self.now.words ≡ self.now.class.words }
    {
        self.number
    }

    /// The object, with the words with which it left.
    pub fn into_object(self) -> B
        ensures class { B.class result ≡ self.class }
        ensures words { B.words result ≡ self.words }
    {
        let Job { object, .. } = self;
        object
    }

    /// Runs the entry. Takes no memory.
    pub fn work(self) -> Done<B>
        ensures { result ≡ self }
    {
        let Job {
            handler,
            block,
            number,
            entry,
            words,
            mut object,
        } = self;
        let answer = run_entry(&mut object, &entry);
        let ran = Ran {
            block,
            number,
            entry,
            answer,
        };
        Done {
            handler,
            ran,
            left: words,
            object,
        }
    }
}

impl<B: Behaviour> Done<B> {
    /// The handler that the object left.
    pub fn handler(&self) -> HandlerId
        ensures { result ≡ self.now.handler }
    {
        self.handler
    }

    /// The block of the entry that has run.
    pub fn block(&self) -> Block
        ensures { result ≡ self.now.block }
    {
        self.ran.block
    }

    /// The entry's number in its private queue, counted from 1.
    pub fn number(&self) -> u32
        ensures value { result ≡ self.now.number }
        ensures fits { length self.now.words ≡ self.now.class.words }
    {
        self.ran.number
    }

    /// The entry that has run, and the object's answer.
    pub(crate) fn ran(&self) -> Ran
        ensures { result ≡ ran_of self.now }
    {
        self.ran
    }

    /// The object's new words.
    pub(crate) fn words(&self) -> Words
        ensures { result ≡ (task_effect self.now).0 }
    {
        self.object.words()
    }

    /// The object, with its new words.
    pub fn into_object(self) -> B
        ensures class { B.class result ≡ self.class }
        ensures words { B.words result ≡ (task_effect self).0 }
    {
        let Done { object, .. } = self;
        object
    }

    /// Whether it is the job of this handler, with this first entry, class and starting words.
    pub(crate) fn is_of(
        &self,
        handler: HandlerId,
        first: (Block, u32, Entry),
        class: &Class,
        left: &Words,
    ) -> bool
        ensures { IsTrue result ↔ (self.now ≡ task_with handler first class.now left.now) }
    {
        let (block, number, entry) = first;
        self.handler == handler
            && self.ran.block == block
            && self.ran.number == number
            && self.ran.entry == entry
            && self.left == *left
            && self.object.has_class(class)
    }
}
