//! One handler: its state, and how a message changes it.

ghost use Rattle.std.specs.Prelude.{◌≡◌};
ghost use Rattle.scoop_handler.specs.Core.{IsCore};

mod exchanging;
mod hearing;
mod making;
mod recalling;
mod running;

use crate::state::HandlerState;
use scoop_message::{Block, HandlerId, Words};
use scoop_object::{Behaviour, Class};
use std::alloc::{Allocator, Global};
use std::marker::Model;

/// One handler with its object. Contracts see its state, the class of its object, and whether a job is out.
#[derive(Drop)]
pub struct Handler<B: Behaviour, A: Allocator = Global> {
    class: Class,
    state: HandlerState<A>,
    // None while a job is out.
    object: Option<B>,
}

impl<B: Behaviour, A: Allocator> Model for Handler<B, A> {
    ghost use Rattle.std.specs.Prelude.{◌≡◌, IfSome, is_none};
    ghost use Rattle.scoop_handler.specs.Core.{Core, IsCore, core_of};

    ghost Value = { Core };

    ghost view = { λ h. core_of h.class h.state (is_none h.object) };

    ghost invariant = { λ h.
        IsCore (core_of h.class h.state (is_none h.object))
        × IfSome h.object (λ object. (B.class object ≡ h.class) × (B.words object ≡ h.state.words)) };
}

impl<B: Behaviour, A: Allocator> Handler<B, A> {
    /// The handler's number.
    pub fn number(&self) -> HandlerId
        ensures value { result ≡ self.now.state.number }
        ensures core { IsCore self.now }
    {
        self.state.number
    }

    /// The handler's state.
    pub fn state(&self) -> &HandlerState<A>
        ensures { result.now ≡ self.now.state }
    {
        &self.state
    }

    /// The block that holds the lock.
    pub fn holder(&self) -> Option<Block>
        ensures { result ≡ self.now.state.holder }
    {
        self.state.holder
    }

    /// The object's words, or those with which it left for a job.
    pub fn words(&self) -> Words
        ensures { result ≡ self.now.state.words }
    {
        self.state.words
    }
}
