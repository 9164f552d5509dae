//! A handler as a reader of a world sees it.

ghost use Rattle.std.specs.Prelude.{◌≡◌};

use scoop_handler::HandlerState;
use std::alloc::Allocator;
use std::marker::Model;

/// A copy of a handler's state, and whether a job of it is out.
#[derive(Drop)]
pub struct Standing<A: Allocator> {
    state: HandlerState<A>,
    is_out: bool,
}

impl<A: Allocator> Model for Standing<A> {
    ghost use Rattle.scoop_world.specs.Standing.{Standing as Stands};

    ghost Value = { Stands };

    ghost view = { λ s. record { state = s.state; is_out = s.is_out } };
}

impl<A: Allocator> Standing<A> {
    pub(crate) fn of(state: HandlerState<A>, is_out: bool) -> Standing<A>
        ensures { result ≡ record { state = state; is_out = is_out } }
    {
        Standing { state, is_out }
    }

    /// Its state.
    pub fn state(&self) -> &HandlerState<A>
        ensures { result.now ≡ self.now.state }
    {
        &self.state
    }

    /// Whether a job of it is out.
    pub fn is_out(&self) -> bool
        ensures { result ≡ self.now.is_out }
    {
        self.is_out
    }
}
