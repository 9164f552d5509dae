//! The faults of a journal's line.

use std::fmt;
use thiserror::Error;

/// Why a line is no line of a journal: the fault of its first bad part. Printed as a text.
#[derive(Clone, Copy, Debug, Drop, PartialEq, Eq, Error)]
pub enum LineFault {
    /// The line begins with no word that a journal's line begins with.
    UnknownLine,
    /// A life of another version of journals than 1.
    UnknownVersion,
    /// Fewer or more words than such a line has.
    WordCount,
    /// A word that has to be a number is none, or doesn't fit, or has a needless zero in front.
    NotANumber,
    /// A word that has to be bytes isn't two hex digits in lower case for each byte.
    NotHex,
    /// The bytes are no frame, or a frame of version 1 in a `hear` line.
    NoFrame,
    /// A command has more handlers than 9 or more arguments than 4.
    TooMany,
}

impl fmt::Display for LineFault {
    ghost use Rattle.std.specs.Prelude.{Some};
    ghost use Rattle.scoop_journal.specs.Text.{fault_text};

    ghost output = { λ fault. Some (fault_text fault) };

    fn fmt<W: fmt::Write>(&self, f: &mut fmt::Formatter<W>) -> fmt::Result {
        f.write_str(match self {
            LineFault::UnknownLine => "no line of a journal",
            LineFault::UnknownVersion => "a journal of another version",
            LineFault::WordCount => "too few or too many words",
            LineFault::NotANumber => "not a number",
            LineFault::NotHex => "not hex",
            LineFault::NoFrame => "not a frame",
            LineFault::TooMany => "too many handlers or arguments",
        })
    }
}
