//! The writes of one operation.

ghost use Rattle.std.specs.Prelude.{◌≡◌, ◌≤◌, ◌↔◌, IsTrue, [], length, slice_get};
ghost use Rattle.std.specs.Result.{OkIff};
ghost use Rattle.std.specs.Cmp.Lexicographic.{pointwise, lists_per, lists_equiv};
ghost use Rattle.scoop_message.specs.declared.limits.TheConstants.{MAX_WRITES};
ghost use Rattle.scoop_object.specs.contracts.term.WritePartialEq.TheImpl as on_write;
ghost use Rattle.scoop_object.specs.contracts.term.WritePartialEq.TheImpl.Laws as partial_laws;
ghost use Rattle.scoop_object.specs.contracts.term.WriteEq.TheImpl.Laws as write_laws;

use crate::term::{Term, Write};
use scoop_message::limits::MAX_WRITES;
use std::marker::Model;
use thiserror::Error;

/// An operation has more than sixteen writes.
#[derive(Clone, Copy, Debug, PartialEq, Eq, Error)]
#[error("TooManyWrites")]
pub struct TooManyWrites;

/// The writes of one operation, at most sixteen. Contracts see them as a list.
#[derive(Clone, Copy, Debug)]
pub struct Writes {
    cells: [Write; MAX_WRITES],
    count: usize,
}

impl Model for Writes {
    ghost use Rattle.std.specs.Prelude.{List, take, length};
    ghost use Rattle.scoop_message.specs.declared.limits.TheConstants.{MAX_WRITES};
    ghost use Rattle.scoop_message.specs.Padded.{IsPadded, padded, length-first, padded-first};
    ghost use Rattle.scoop_object.specs.declared.term.Write.{Write as OneWrite};
    ghost use Rattle.scoop_object.specs.Blank.{blank_write};

    ghost Value = { List OneWrite };

    ghost view = { λ a. take a.count a.cells };

    ghost invariant = { λ a. IsPadded blank_write MAX_WRITES a.count a.cells };

    ghost inverse = { λ xs. record { cells = padded blank_write MAX_WRITES xs; count = length xs } };

    ghost inverse_ok = { λ a h i. record {
      cells = padded-first blank_write MAX_WRITES a.count a.cells h i;
      count = length-first blank_write MAX_WRITES a.count a.cells h i;
    } };
}

impl PartialEq for Writes {
    ghost eq = { pointwise on_write.eq-value.it };

    ghost laws = { lists_per partial_laws.laws-law };

    fn eq(&self, other: &Writes) -> bool {
        self.as_slice() == other.as_slice()
    }
}

impl Eq for Writes {
    ghost laws = { lists_equiv write_laws.laws-law };
}

impl Writes {
    ghost use Rattle.std.specs.List.{list_all};
    ghost use Rattle.scoop_object.specs.Class.{write_has_words_below, write_has_args_below};

    /// Makes writes of the list. Returns `TooManyWrites` exactly if there are more than sixteen.
    pub fn of(writes: &[Write]) -> Result<Writes, TooManyWrites>
        ensures { OkIff result (length writes.now ≤ MAX_WRITES) writes.now }
    {
        let count = writes.len();
        if count > MAX_WRITES {
            return Err(TooManyWrites);
        }
        let mut cells = [Write {
            word: 0,
            base: Term::Const(0),
            plus: Term::Const(0),
            minus: Term::Const(0),
        }; MAX_WRITES];
        cells[..count].copy_from_slice(writes);
        Ok(Writes { cells, count })
    }

    /// The writes, in order.
    pub fn as_slice(&self) -> &[Write]
        ensures { result.now ≡ self.now }
    {
        &self.cells[..self.count]
    }

    /// The write at a place, counted from 0.
    pub fn get(&self, i: usize) -> Option<Write>
        ensures { result ≡ slice_get self.now i }
    {
        if i < self.count {
            Some(self.cells[i])
        } else {
            None
        }
    }

    pub fn len(&self) -> usize
        ensures value { result ≡ length self.now }
        ensures limit { length self.now ≤ MAX_WRITES }
    {
        self.count
    }

    pub fn is_empty(&self) -> bool
        ensures { IsTrue result ↔ (self.now ≡ []) }
    {
        self.count == 0
    }

    // Whether all writes name words among the first `n` alone.
    pub(crate) fn have_words_below(&self, n: usize) -> bool
        ensures { result ≡ list_all (write_has_words_below n) self.now }
    {
        self.as_slice().iter().all(|write| write.has_words_below(n))
    }

    // Whether all writes name arguments among the first `n` alone.
    pub(crate) fn have_args_below(&self, n: usize) -> bool
        ensures { result ≡ list_all (write_has_args_below n) self.now }
    {
        self.as_slice().iter().all(|write| write.has_args_below(n))
    }
}
