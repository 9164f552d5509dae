//! Entries that clients log at handlers, and the answers of objects.

ghost use Rattle.std.specs.Prelude.{◌≡◌};

use crate::args::Args;
use std::fmt;

/// An operation of an object with its arguments.
#[derive(Clone, Copy, Debug, PartialEq, Eq)]
pub struct Request {
    pub op: u16,
    pub args: Args,
}

/// An entry that a client logs in a private queue.
#[derive(Clone, Copy, Debug, PartialEq, Eq)]
pub enum Entry {
    /// A command: the client logs it and goes on.
    Call(Request),
    /// A query: the client waits for its answer.
    Query(Request),
    /// The end of the block, which is logged last.
    End,
}

impl Entry {
    ghost use Rattle.scoop_message.specs.Entry.{is_end, is_query};

    /// Whether this is the end of the block.
    pub fn is_end(&self) -> bool
        ensures { result ≡ is_end self.now }
    {
        matches!(self, Entry::End)
    }

    /// Whether a client waits for the answer.
    pub fn is_query(&self) -> bool
        ensures { result ≡ is_query self.now }
    {
        matches!(self, Entry::Query(_))
    }
}

/// The answer of an object to a request. Printed as `refused` or as the value.
#[derive(Clone, Copy, Debug, PartialEq, Eq)]
pub enum Answer {
    /// The object refused the request and hasn't changed.
    Refused,
    /// The object carried out the request, with this answer.
    Value(u64),
}

impl fmt::Display for Answer {
    ghost use Rattle.std.specs.Prelude.{Some};
    ghost use Rattle.scoop_message.specs.Text.{answer_text};

    ghost output = { λ a. Some (answer_text a) };

    fn fmt<W: fmt::Write>(&self, f: &mut fmt::Formatter<W>) -> fmt::Result {
        match self {
            Answer::Refused => f.write_str("refused"),
            Answer::Value(value) => write!(f, "{value}"),
        }
    }
}
