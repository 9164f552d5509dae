//! An entry that has run.

ghost use Rattle.std.specs.Prelude.{◌≡◌};
ghost use Rattle.scoop_message.specs.Entry.{is_query};

use scoop_message::{Answer, Block, Entry};

/// An entry that a handler has run, and the object's answer. An End has none.
#[derive(Clone, Copy, Debug, PartialEq, Eq)]
pub struct Ran {
    pub block: Block,
    /// The entry's number in its private queue, counted from 1.
    pub number: u32,
    pub entry: Entry,
    pub answer: Option<Answer>,
}

impl Ran {
    /// Whether it is a query, the one kind of entry whose answer is kept.
    pub(crate) fn is_query(&self) -> bool
        ensures { result ≡ is_query self.now.entry }
    {
        match self.entry {
            Entry::Query(_) => true,
            Entry::Call(_) => false,
            Entry::End => false,
        }
    }
}
