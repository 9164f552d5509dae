//! The lives that the journal of one party tells, and where they begin.

use crate::error::PartyName;
use scoop_message::OutOfMemory;
use std::alloc::Global;

/// A life of a party.
#[derive(Clone, Copy, Debug)]
pub struct Life {
    /// The place of its first move.
    pub(crate) first: usize,
    /// The number of its line that says that it begins.
    pub(crate) line: u64,
    /// How many entries or steps it has.
    pub(crate) entries: u64,
    /// How many of its entries were stored, if the next life shows it. The further ones are left out.
    pub(crate) stored: Option<u64>,
}

/// The lives of one party.
#[derive(Drop)]
pub struct Tale {
    party: PartyName,
    pub(crate) journal: Option<usize>,
    pub(crate) lives: Vec<Life>,
    pub(crate) turns: u64,
}

impl Tale {
    /// The tale of this party, with no lives yet.
    pub(crate) fn new(alloc: Global, party: PartyName, journal: Option<usize>) -> Tale {
        Tale {
            party,
            journal,
            lives: Vec::new(alloc),
            turns: 0,
        }
    }

    /// The party.
    pub fn party(&self) -> PartyName {
        self.party
    }

    /// Whether the party has a journal.
    pub fn has_journal(&self) -> bool {
        self.journal.is_some()
    }

    /// How many lives its journal tells.
    pub fn lives(&self) -> usize {
        self.lives.len()
    }

    /// How many entries or steps they have.
    pub fn entries(&self) -> u64 {
        let mut sum: u64 = 0;
        for life in self.lives.as_slice() {
            sum = sum.saturating_add(life.entries);
        }
        sum
    }

    /// The last entries of the life at this place, counted from 0, that were not stored, and are left out. The result is
    /// the numbers of the first and the last of them in the life, counted from 1.
    pub fn left_out(&self, place: usize) -> Option<(u64, u64)> {
        let life = self.lives.get(place)?;
        let stored = life.stored?;
        if stored < life.entries {
            Some((stored + 1, life.entries))
        } else {
            None
        }
    }

    /// How many last turns of lives are supposed.
    pub fn supposed_turns(&self) -> u64 {
        self.turns
    }

    /// One more life, which begins with the move at this place and at this line.
    pub(crate) fn begin(&mut self, first: usize, line: u64) -> Result<(), OutOfMemory> {
        self.lives.push(Life {
            first,
            line,
            entries: 0,
            stored: None,
        })?;
        Ok(())
    }

    /// One more entry of the last life.
    pub(crate) fn count(&mut self) {
        let last = self.lives.len().saturating_sub(1);
        if let Some(life) = self.lives.get_mut(last) {
            life.entries = life.entries.saturating_add(1);
        }
    }

    /// This many entries of the last life were stored, if the next life shows it.
    pub(crate) fn keep(&mut self, stored: Option<u64>) {
        let last = self.lives.len().saturating_sub(1);
        if let Some(life) = self.lives.get_mut(last) {
            life.stored = stored;
        }
    }

    /// Whether the newest entry of the last life is left out.
    pub(crate) fn has_left_out(&self) -> bool {
        self.left_out(self.lives.len().saturating_sub(1)).is_some()
    }

    /// The life, counted from 0, that has the move at this place.
    pub(crate) fn life_of(&self, place: usize) -> usize {
        let mut found = 0;
        for (at, life) in self.lives.iter().enumerate() {
            if life.first <= place {
                found = at;
            }
        }
        found
    }
}
