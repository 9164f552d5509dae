//! The entries that one Log carries.

ghost use Rattle.std.specs.Prelude.{◌≡◌, ◌≤◌, ◌<◌, length, slice_get};
ghost use Rattle.std.specs.Result.{OkIff};
ghost use Rattle.std.specs.Cmp.Lexicographic.{pointwise, lists_per, lists_equiv};
ghost use Rattle.scoop_message.specs.Entries.{EndOnlyLast, end_only_last, ends};
ghost use Rattle.scoop_message.specs.contracts.request.EntryPartialEq.TheImpl as on_entry;
ghost use Rattle.scoop_message.specs.contracts.request.EntryPartialEq.TheImpl.Laws as partial_laws;
ghost use Rattle.scoop_message.specs.contracts.request.EntryEq.TheImpl.Laws as entry_laws;

use crate::limits::MAX_ENTRIES;
use crate::request::Entry;
use std::marker::Model;
use thiserror::Error;

/// There are no entries, more than four, or one after an End.
#[derive(Clone, Copy, Debug, PartialEq, Eq, Error)]
#[error("BadEntries")]
pub struct BadEntries;

/// The entries of a Log: one to four, and only the last may be an End. Contracts see them as a list.
#[derive(Clone, Copy, Debug)]
pub struct Entries {
    cells: [Entry; MAX_ENTRIES],
    count: usize,
}

impl Model for Entries {
    ghost use Rattle.std.specs.Prelude.{List, ◌<◌, take, length};
    ghost use Rattle.scoop_message.specs.declared.request.Entry.{Entry as LogEntry};
    ghost use Rattle.scoop_message.specs.declared.request.Entry.TheVariants.{End};
    ghost use Rattle.scoop_message.specs.declared.limits.TheConstants.{MAX_ENTRIES};
    ghost use Rattle.scoop_message.specs.Padded.{IsPadded, padded, length-first, padded-first};
    ghost use Rattle.scoop_message.specs.Entries.{EndOnlyLast};

    ghost Value = { List LogEntry };

    ghost view = { λ a. take a.count a.cells };

    ghost invariant = { λ a. (0 < a.count) × IsPadded End MAX_ENTRIES a.count a.cells × EndOnlyLast (take a.count a.cells) };

    ghost inverse = { λ xs. record { cells = padded End MAX_ENTRIES xs; count = length xs } };

    ghost inverse_ok = { λ a h i. record {
      cells = padded-first End MAX_ENTRIES a.count a.cells h.1 i;
      count = length-first End MAX_ENTRIES a.count a.cells h.1 i;
    } };
}

impl PartialEq for Entries {
    ghost eq = { pointwise on_entry.eq-value.it };

    ghost laws = { lists_per partial_laws.laws-law };

    fn eq(&self, other: &Entries) -> bool {
        self.as_slice() == other.as_slice()
    }
}

impl Eq for Entries {
    ghost laws = { lists_equiv entry_laws.laws-law };
}

// Whether only the last entry is an End.
fn end_only_last(entries: &[Entry]) -> bool
    ensures { result ≡ end_only_last entries.now }
{
    match entries {
        [] => true,
        [_] => true,
        [first, rest @ ..] => !first.is_end() && end_only_last(rest),
    }
}

/// Whether the last of some entries is an End.
pub fn ends(entries: &[Entry]) -> bool
    ensures { result ≡ ends entries.now }
{
    match entries {
        [.., last] => last.is_end(),
        [] => false,
    }
}

impl Entries {
    /// Makes the entries of one Log of the list. Returns `BadEntries` exactly if there are none, more than four,
    /// or an End before the last.
    pub fn of(entries: &[Entry]) -> Result<Entries, BadEntries>
        ensures { OkIff result ((0 < length entries.now) × (length entries.now ≤ MAX_ENTRIES) × EndOnlyLast entries.now) entries.now }
    {
        let count = entries.len();
        if count == 0 || count > MAX_ENTRIES || !end_only_last(entries) {
            return Err(BadEntries);
        }
        let mut cells = [Entry::End; MAX_ENTRIES];
        cells[..count].copy_from_slice(entries);
        Ok(Entries { cells, count })
    }

    /// The entries, in order.
    pub fn as_slice(&self) -> &[Entry]
        ensures { result.now ≡ self.now }
    {
        &self.cells[..self.count]
    }

    /// The entry at a place, counted from 0.
    pub fn get(&self, i: usize) -> Option<Entry>
        ensures { result ≡ slice_get self.now i }
    {
        if i < self.count {
            Some(self.cells[i])
        } else {
            None
        }
    }

    /// How many entries there are: always at least one.
    #[allow(clippy::len_without_is_empty)]
    pub fn len(&self) -> usize
        ensures value { result ≡ length self.now }
        ensures some { 0 < length self.now }
        ensures limit { length self.now ≤ MAX_ENTRIES }
        ensures end { EndOnlyLast self.now }
    {
        self.count
    }
}
