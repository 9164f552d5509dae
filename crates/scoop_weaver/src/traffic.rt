//! The messages that a party hears and sends.

ghost use Rattle.std.specs.Prelude.{◌≡◌, ◌+◌, ◌<◌, ◌^◌, length, slice_get, IfSome};

use scoop_message::Message;
use std::alloc::{Allocator, Global};
use std::marker::Model;

/// The message that a move hears, and the one that it sends, if any.
#[derive(Clone, Copy, Debug)]
pub struct Traffic {
    /// The message that it hears.
    pub heard: Option<Message>,
    /// The message that it sends.
    pub sent: Option<Message>,
}

impl Traffic {
    /// A move that neither hears nor sends.
    pub const SILENT: Traffic = Traffic {
        heard: None,
        sent: None,
    };
}

/// The moves of one party, in order. Contracts see them as a list.
#[derive(Drop)]
pub struct Party<A: Allocator = Global> {
    pub(crate) moves: Vec<Traffic, A>,
}

impl<A: Allocator> Model for Party<A> {
    ghost use Rattle.std.specs.Prelude.{List};
    ghost use Rattle.scoop_weaver.specs.declared.traffic.Traffic.{Traffic as Move};

    ghost Value = { List Move };

    ghost view = { λ p. p.moves.items };
}

impl<A: Allocator> Party<A> {
    /// How many moves there are.
    pub fn len(&self) -> usize
        ensures { result ≡ length self.now }
    {
        self.moves.len()
    }

    /// The move at this place, counted from 0, if there is one.
    pub fn get(&self, place: usize) -> Option<Traffic>
        ensures value { result ≡ slice_get self.now place }
        ensures small { IfSome result (λ _. place + 1 < 2 ^ 64) }
    {
        if place < self.moves.len() {
            Some(self.moves[place])
        } else {
            None
        }
    }
}
