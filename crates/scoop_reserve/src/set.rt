//! The handlers of one block, kept in place.

ghost use Rattle.std.specs.Prelude.{◌≡◌, ◌≤◌, ◌<◌, ◌++◌, ◌∷◌, [], length};
ghost use Rattle.scoop_reserve.specs.Handlers.{without, is_empty, asked};

use crate::handlers::{has, is_lowest};
use scoop_message::HandlerId;
use scoop_message::limits::MAX_BLOCK_HANDLERS;
use std::marker::Model;

// The filler of unused cells.
const NOBODY: HandlerId = HandlerId(0);

/// A list of at most eight handlers. Contracts see it as a list.
#[derive(Clone, Copy, Debug)]
pub(crate) struct HandlerSet {
    cells: [HandlerId; MAX_BLOCK_HANDLERS],
    count: usize,
}

impl Model for HandlerSet {
    ghost use Rattle.std.specs.Prelude.{List, take, length};
    ghost use Rattle.scoop_message.specs.declared.name.HandlerId.{HandlerId as Handler};
    ghost use Rattle.scoop_message.specs.declared.limits.TheConstants.{MAX_BLOCK_HANDLERS};
    ghost use Rattle.scoop_message.specs.Padded.{IsPadded, padded, length-first, padded-first};
    ghost use Rattle.scoop_reserve.specs.Handlers.{nobody};

    ghost Value = { List Handler };

    ghost view = { λ a. take a.count a.cells };

    ghost invariant = { λ a. IsPadded nobody MAX_BLOCK_HANDLERS a.count a.cells };

    ghost inverse = { λ xs. record { cells = padded nobody MAX_BLOCK_HANDLERS xs; count = length xs } };

    ghost inverse_ok = { λ a h i. record {
      cells = padded-first nobody MAX_BLOCK_HANDLERS a.count a.cells h i;
      count = length-first nobody MAX_BLOCK_HANDLERS a.count a.cells h i;
    } };
}

impl HandlerSet {
    /// No handler.
    pub(crate) fn new() -> HandlerSet
        ensures { result ≡ [] }
    {
        HandlerSet {
            cells: [NOBODY; MAX_BLOCK_HANDLERS],
            count: 0,
        }
    }

    /// Makes the list, which has at most eight handlers.
    pub(crate) fn of(handlers: &[HandlerId]) -> HandlerSet
        requires { length handlers.now ≤ MAX_BLOCK_HANDLERS }
        ensures { result ≡ handlers.now }
    {
        let count = handlers.len();
        let mut cells = [NOBODY; MAX_BLOCK_HANDLERS];
        cells[..count].copy_from_slice(handlers);
        HandlerSet { cells, count }
    }

    /// The handlers, in order.
    pub(crate) fn as_slice(&self) -> &[HandlerId]
        ensures value { result.now ≡ self.now }
        ensures limit { length self.now ≤ MAX_BLOCK_HANDLERS }
    {
        &self.cells[..self.count]
    }

    /// Whether there are none.
    pub(crate) fn is_empty(&self) -> bool
        ensures { result ≡ is_empty self.now }
    {
        self.count == 0
    }

    // Puts one after the others.
    fn push(&mut self, handler: HandlerId)
        requires { length self.old < MAX_BLOCK_HANDLERS }
        ensures { self.new ≡ self.old ++ handler ∷ [] }
    {
        self.cells[self.count] = handler;
        self.count += 1;
    }

    /// The handlers other than this one, in order.
    pub(crate) fn without(&self, handler: HandlerId) -> HandlerSet
        ensures { result ≡ without handler self.now }
    {
        let mut others = HandlerSet::new();
        for x in self.as_slice() {
            if *x != handler {
                others.push(*x);
            }
        }
        others
    }

    /// The handlers that were locked or are next, if `left` are left.
    pub(crate) fn asked(&self, left: &HandlerSet) -> HandlerSet
        ensures { result ≡ asked self.now left.now }
    {
        let mut asked = HandlerSet::new();
        for x in self.as_slice() {
            if !has(left.as_slice(), *x) || is_lowest(*x, left.as_slice()) {
                asked.push(*x);
            }
        }
        asked
    }
}
