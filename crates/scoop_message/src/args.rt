//! The arguments of a request.

ghost use Rattle.std.specs.Prelude.{◌≡◌, ◌≤◌, ◌↔◌, ◌==◌, IsTrue, [], length, slice_get};
ghost use Rattle.std.specs.Result.{OkIff};
ghost use Rattle.std.specs.Cmp.Lexicographic.{pointwise};
ghost use Rattle.std.specs.Cmp.Rules.{comparing};
ghost use Rattle.std.proofs.Common.{rules};

use crate::limits::MAX_ARGS;
use std::marker::Model;
use thiserror::Error;

/// A request has more than four arguments.
#[derive(Clone, Copy, Debug, PartialEq, Eq, Error)]
#[error("TooManyArgs")]
pub struct TooManyArgs;

/// The arguments of a request, at most four. Contracts see them as a list.
#[derive(Clone, Copy, Debug)]
pub struct Args {
    cells: [u64; MAX_ARGS],
    count: usize,
}

impl Model for Args {
    ghost use Rattle.std.specs.Prelude.{List, ℕ, take, length};
    ghost use Rattle.scoop_message.specs.declared.limits.TheConstants.{MAX_ARGS};
    ghost use Rattle.scoop_message.specs.Padded.{IsPadded, padded, length-first, padded-first};

    ghost Value = { List ℕ };

    ghost view = { λ a. take a.count a.cells };

    ghost invariant = { λ a. IsPadded 0 MAX_ARGS a.count a.cells };

    // The cells after the list are known, so the list determines the array.
    ghost inverse = { λ xs. record { cells = padded 0 MAX_ARGS xs; count = length xs } };

    ghost inverse_ok = { λ a h i. record {
      cells = padded-first 0 MAX_ARGS a.count a.cells h i;
      count = length-first 0 MAX_ARGS a.count a.cells h i;
    } };
}

impl PartialEq for Args {
    ghost eq = { pointwise ◌==◌ };

    ghost laws = { Prim.search (comparing, rules) };

    fn eq(&self, other: &Args) -> bool {
        self.as_slice() == other.as_slice()
    }
}

impl Eq for Args {
    ghost laws = { Prim.search (comparing, rules) };
}

impl Args {
    /// Makes arguments of the list. Returns `TooManyArgs` exactly if there are more than four.
    pub fn of(args: &[u64]) -> Result<Args, TooManyArgs>
        ensures { OkIff result (length args.now ≤ MAX_ARGS) args.now }
    {
        let count = args.len();
        if count > MAX_ARGS {
            return Err(TooManyArgs);
        }
        let mut cells = [0; MAX_ARGS];
        cells[..count].copy_from_slice(args);
        Ok(Args { cells, count })
    }

    /// The arguments, in order.
    pub fn as_slice(&self) -> &[u64]
        ensures { result.now ≡ self.now }
    {
        &self.cells[..self.count]
    }

    /// The argument at a place, counted from 0.
    pub fn get(&self, i: usize) -> Option<u64>
        ensures { result ≡ slice_get self.now i }
    {
        if i < self.count {
            Some(self.cells[i])
        } else {
            None
        }
    }

    pub fn len(&self) -> usize
        ensures value { result ≡ length self.now }
        ensures limit { length self.now ≤ MAX_ARGS }
    {
        self.count
    }

    pub fn is_empty(&self) -> bool
        ensures { IsTrue result ↔ (self.now ≡ []) }
    {
        self.count == 0
    }
}
