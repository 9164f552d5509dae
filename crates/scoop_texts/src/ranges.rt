//! The ranges of a node's and a client's numbers.

ghost use Rattle.std.specs.Prelude.{◌≡◌};
ghost use Rattle.scoop_texts.specs.Ranges.{greatest, is_within, least, name_text, range_advice};

use scoop_message::limits::{MAX_ENTRIES, MAX_HISTORY};
use std::error::Error;
use std::fmt;

/// The most threads that run a node's handlers.
pub const MAX_EXECUTORS: u64 = 64;

/// The least limit of a node's history: an entry that runs is recorded as two.
pub const MIN_HISTORY: u64 = 2;

/// The number that is out of its range. Its text has the range: `--executors must be a whole number from 1 to 64`.
#[derive(Clone, Copy, Debug, PartialEq, Eq)]
pub enum OutOfRange {
    /// The threads that run a node's handlers.
    Executors,
    /// The limit of a node's history.
    History,
    /// The turns of a node's loop or of a client's command, in the demo too.
    Turns,
    /// The most entries that a client puts into one Log.
    Batch,
}

impl OutOfRange {
    /// The least number of the range.
    pub fn least(self) -> u64
        ensures { result ≡ least self }
    {
        match self {
            OutOfRange::History => MIN_HISTORY,
            OutOfRange::Executors | OutOfRange::Turns | OutOfRange::Batch => 1,
        }
    }

    /// The greatest number of the range.
    pub fn greatest(self) -> u64
        ensures { result ≡ greatest self }
    {
        match self {
            OutOfRange::Executors => MAX_EXECUTORS,
            OutOfRange::History => MAX_HISTORY as u64,
            OutOfRange::Turns => u64::MAX,
            OutOfRange::Batch => MAX_ENTRIES as u64,
        }
    }

    /// Whether the number is in the range.
    pub fn is_within(self, number: u64) -> bool
        ensures { result ≡ is_within self number }
    {
        self.least() <= number && number <= self.greatest()
    }

    // The program's name for the number.
    fn name(self) -> &'static str
        ensures { result.now ≡ name_text self }
    {
        match self {
            OutOfRange::Executors => "--executors",
            OutOfRange::History => "--history",
            OutOfRange::Turns => "--turns",
            OutOfRange::Batch => "batch",
        }
    }

    /// The advice for this number.
    pub fn advice(self) -> &'static str
        ensures { result.now ≡ range_advice self }
    {
        match self {
            OutOfRange::Executors => { "give such a number, or omit the option for 2" }
            OutOfRange::History => { "give such a number, or omit the option for 100000" }
            OutOfRange::Turns => {
                "give such a number, or omit the option: then a client's command takes at most 100000 turns, and scoop node \
                serves until you kill it"
            }
            OutOfRange::Batch => "fix the client's batch in the system's file",
        }
    }
}

impl fmt::Display for OutOfRange {
    ghost use Rattle.std.specs.Prelude.{Some};
    ghost use Rattle.scoop_texts.specs.Ranges.{range_text};

    ghost output = { λ r. Some (range_text r) };

    fn fmt<W: fmt::Write>(&self, f: &mut fmt::Formatter<W>) -> fmt::Result {
        let name = self.name();
        let least = self.least();
        let greatest = self.greatest();
        write!(
            f,
            "{name} must be a whole number from {least} to {greatest}"
        )
    }
}

impl Error for OutOfRange {}
