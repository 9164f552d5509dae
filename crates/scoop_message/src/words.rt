//! The words of an object.

ghost use Rattle.std.specs.Prelude.{◌≡◌, ◌≤◌, ◌<◌, ◌==◌, length, slice_get, slice_set};
ghost use Rattle.std.specs.Result.{OkIff};
ghost use Rattle.std.specs.Cmp.Lexicographic.{pointwise};
ghost use Rattle.std.specs.Cmp.Rules.{comparing};
ghost use Rattle.std.proofs.Common.{rules};

use crate::limits::MAX_WORDS;
use std::marker::Model;
use thiserror::Error;

/// An object has no words or more than sixteen.
#[derive(Clone, Copy, Debug, PartialEq, Eq, Error)]
#[error("WordCount")]
pub struct WordCount;

/// The words of an object, from one to sixteen. Contracts see them as a list.
#[derive(Clone, Copy, Debug)]
pub struct Words {
    cells: [u64; MAX_WORDS],
    count: usize,
}

impl Model for Words {
    ghost use Rattle.std.specs.Prelude.{List, ℕ, ◌<◌, take, length};
    ghost use Rattle.scoop_message.specs.declared.limits.TheConstants.{MAX_WORDS};
    ghost use Rattle.scoop_message.specs.Padded.{IsPadded, padded, length-first, padded-first};

    ghost Value = { List ℕ };

    ghost view = { λ w. take w.count w.cells };

    ghost invariant = { λ w. (0 < w.count) × IsPadded 0 MAX_WORDS w.count w.cells };

    ghost inverse = { λ xs. record { cells = padded 0 MAX_WORDS xs; count = length xs } };

    ghost inverse_ok = { λ w h i. record {
      cells = padded-first 0 MAX_WORDS w.count w.cells h.1 i;
      count = length-first 0 MAX_WORDS w.count w.cells h.1 i;
    } };
}

impl PartialEq for Words {
    ghost eq = { pointwise ◌==◌ };

    ghost laws = { Prim.search (comparing, rules) };

    fn eq(&self, other: &Words) -> bool {
        self.as_slice() == other.as_slice()
    }
}

impl Eq for Words {
    ghost laws = { Prim.search (comparing, rules) };
}

impl Words {
    /// Makes words of the list. Returns `WordCount` exactly if there are none or more than sixteen.
    pub fn of(words: &[u64]) -> Result<Words, WordCount>
        ensures { OkIff result ((0 < length words.now) × (length words.now ≤ MAX_WORDS)) words.now }
    {
        let count = words.len();
        if count == 0 || count > MAX_WORDS {
            return Err(WordCount);
        }
        let mut cells = [0; MAX_WORDS];
        cells[..count].copy_from_slice(words);
        Ok(Words { cells, count })
    }

    /// The words, in order.
    pub fn as_slice(&self) -> &[u64]
        ensures { result.now ≡ self.now }
    {
        &self.cells[..self.count]
    }

    /// The word at a place, counted from 0.
    pub fn get(&self, i: usize) -> Option<u64>
        ensures { result ≡ slice_get self.now i }
    {
        if i < self.count {
            Some(self.cells[i])
        } else {
            None
        }
    }

    /// Sets the word at a place, counted from 0.
    pub fn set(&mut self, i: usize, word: u64)
        requires { i < length self.old }
        ensures { self.new ≡ slice_set self.old i word }
    {
        // For the prover, which opens the fields here.
        prove!(i < self.count);
        self.cells[i] = word;
    }

    /// How many words there are: always at least one.
    #[allow(clippy::len_without_is_empty)]
    pub fn len(&self) -> usize
        ensures value { result ≡ length self.now }
        ensures some { 0 < length self.now }
        ensures limit { length self.now ≤ MAX_WORDS }
    {
        self.count
    }
}
