//! The handlers that a command names.

ghost use Rattle.std.specs.Prelude.{◌≡◌, ◌≤◌, length};
ghost use Rattle.std.specs.Result.{OkIff};
ghost use Rattle.std.specs.Cmp.Lexicographic.{pointwise, lists_per, lists_equiv};
ghost use Rattle.scoop_message.specs.contracts.name.HandlerIdPartialEq.TheImpl as on_handler;
ghost use Rattle.scoop_message.specs.contracts.name.HandlerIdPartialEq.TheImpl.Laws as partial_laws;
ghost use Rattle.scoop_message.specs.contracts.name.HandlerIdEq.TheImpl.Laws as handler_laws;

use scoop_message::HandlerId;
use std::marker::Model;
use thiserror::Error;

/// The most handlers that one command may name. That is one more than a block may have, so that a list of one too
/// many reaches the client, which refuses it.
pub const MAX_NAMED_HANDLERS: usize = 9;

// The filler of unused cells.
const NOBODY: HandlerId = HandlerId(0);

/// There are more than nine handlers.
#[derive(Clone, Copy, Debug, PartialEq, Eq, Error)]
#[error("TooManyHandlers")]
pub struct TooManyHandlers;

/// A list of at most nine handlers, in the order in which they were named. Contracts see it as a list.
#[derive(Clone, Copy, Debug)]
pub struct HandlerList {
    cells: [HandlerId; MAX_NAMED_HANDLERS],
    count: usize,
}

impl Model for HandlerList {
    ghost use Rattle.std.specs.Prelude.{List, take, length};
    ghost use Rattle.scoop_message.specs.declared.name.HandlerId.{HandlerId as Handler};
    ghost use Rattle.scoop_message.specs.Padded.{IsPadded, padded, length-first, padded-first};
    ghost use Rattle.scoop_reserve.specs.Handlers.{nobody};
    ghost use Rattle.scoop_client.specs.declared.handlers.TheConstants.{MAX_NAMED_HANDLERS};

    ghost Value = { List Handler };

    ghost view = { λ a. take a.count a.cells };

    ghost invariant = { λ a. IsPadded nobody MAX_NAMED_HANDLERS a.count a.cells };

    ghost inverse = { λ xs. record { cells = padded nobody MAX_NAMED_HANDLERS xs; count = length xs } };

    ghost inverse_ok = { λ a h i. record {
      cells = padded-first nobody MAX_NAMED_HANDLERS a.count a.cells h i;
      count = length-first nobody MAX_NAMED_HANDLERS a.count a.cells h i;
    } };
}

impl PartialEq for HandlerList {
    ghost eq = { pointwise on_handler.eq-value.it };

    ghost laws = { lists_per partial_laws.laws-law };

    fn eq(&self, other: &HandlerList) -> bool {
        self.as_slice() == other.as_slice()
    }
}

impl Eq for HandlerList {
    ghost laws = { lists_equiv handler_laws.laws-law };
}

impl HandlerList {
    /// Makes the list of these handlers. Returns `TooManyHandlers` exactly if there are more than nine.
    pub fn of(handlers: &[HandlerId]) -> Result<HandlerList, TooManyHandlers>
        ensures { OkIff result (length handlers.now ≤ MAX_NAMED_HANDLERS) handlers.now }
    {
        let count = handlers.len();
        if count > MAX_NAMED_HANDLERS {
            return Err(TooManyHandlers);
        }
        let mut cells = [NOBODY; MAX_NAMED_HANDLERS];
        cells[..count].copy_from_slice(handlers);
        Ok(HandlerList { cells, count })
    }

    /// The handlers, in order.
    pub fn as_slice(&self) -> &[HandlerId]
        ensures value { result.now ≡ self.now }
        ensures limit { length self.now ≤ MAX_NAMED_HANDLERS }
    {
        &self.cells[..self.count]
    }
}
