//! The handlers that a line, or the table of a client, names.

ghost use Rattle.std.specs.Prelude.{◌≡◌, ◌≤◌, length};
ghost use Rattle.std.specs.Result.{OkIff};
ghost use Rattle.scoop_message.specs.declared.limits.TheConstants.{MAX_HANDLERS};
ghost use Rattle.std.specs.Cmp.Lexicographic.{pointwise, lists_per, lists_equiv};
ghost use Rattle.scoop_message.specs.contracts.name.HandlerIdPartialEq.TheImpl as on_handler;
ghost use Rattle.scoop_message.specs.contracts.name.HandlerIdPartialEq.TheImpl.Laws as partial_laws;
ghost use Rattle.scoop_message.specs.contracts.name.HandlerIdEq.TheImpl.Laws as handler_laws;

use scoop_message::HandlerId;
use scoop_message::limits::MAX_HANDLERS;
use std::marker::Model;
use thiserror::Error;

// The value of an unused cell.
const NOBODY: HandlerId = HandlerId(0);

/// More handlers are named than a system may have.
#[derive(Clone, Copy, Debug, PartialEq, Eq, Error)]
#[error("TooManyNamed")]
pub struct TooManyNamed;

/// Named handlers, at most as many as a system may have, in order. Contracts see them as a list.
#[derive(Clone, Copy, Debug)]
pub struct NamedHandlers {
    cells: [HandlerId; MAX_HANDLERS],
    count: usize,
}

impl Model for NamedHandlers {
    ghost use Rattle.std.specs.Prelude.{List, take, length};
    ghost use Rattle.scoop_message.specs.declared.name.HandlerId.{HandlerId as Handler};
    ghost use Rattle.scoop_message.specs.Padded.{IsPadded, padded, length-first, padded-first};
    ghost use Rattle.scoop_message.specs.declared.limits.TheConstants.{MAX_HANDLERS};
    ghost use Rattle.scoop_system.specs.NamedHandlers.{nobody};

    ghost Value = { List Handler };

    ghost view = { λ a. take a.count a.cells };

    ghost invariant = { λ a. IsPadded nobody MAX_HANDLERS a.count a.cells };

    ghost inverse = { λ xs. record { cells = padded nobody MAX_HANDLERS xs; count = length xs } };

    ghost inverse_ok = { λ a h i. record {
      cells = padded-first nobody MAX_HANDLERS a.count a.cells h i;
      count = length-first nobody MAX_HANDLERS a.count a.cells h i;
    } };
}

impl PartialEq for NamedHandlers {
    ghost eq = { pointwise on_handler.eq-value.it };

    ghost laws = { lists_per partial_laws.laws-law };

    fn eq(&self, other: &NamedHandlers) -> bool {
        self.as_slice() == other.as_slice()
    }
}

impl Eq for NamedHandlers {
    ghost laws = { lists_equiv handler_laws.laws-law };
}

impl NamedHandlers {
    /// The list as named handlers. The error is `TooManyNamed` exactly if there are more than 64.
    pub fn of(handlers: &[HandlerId]) -> Result<NamedHandlers, TooManyNamed>
        ensures { OkIff result (length handlers.now ≤ MAX_HANDLERS) handlers.now }
    {
        let count = handlers.len();
        if count > MAX_HANDLERS {
            return Err(TooManyNamed);
        }
        let mut cells = [NOBODY; MAX_HANDLERS];
        cells[..count].copy_from_slice(handlers);
        Ok(NamedHandlers { cells, count })
    }

    /// The handlers, in order.
    pub fn as_slice(&self) -> &[HandlerId]
        ensures { result.now ≡ self.now }
    {
        &self.cells[..self.count]
    }
}
