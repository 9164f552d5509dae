//! An exchange of states between a handler and a state beside it.

ghost use Rattle.std.specs.Prelude.{◌≡◌};
ghost use Rattle.scoop_handler.specs.Core.{with_state};
ghost use Rattle.scoop_handler.specs.Running.{MayReset};

use crate::handler::Handler;
use crate::setting::set_words;
use crate::state::HandlerState;
use scoop_object::Behaviour;
use std::alloc::Allocator;
use std::mem;

impl<B: Behaviour, A: Allocator> Handler<B, A> {
    /// Makes this the state, sets the object's words, and returns the state that the handler had. A job that is
    /// out stays out. Takes no memory.
    pub fn exchange(&mut self, state: &mut HandlerState<A>)
        requires { MayReset state.old self.old }
        ensures taken { self.new ≡ with_state state.old self.old }
        ensures handed_out { state.new ≡ self.old.state }
    {
        // Only a job changes them.
        if self.state.words != state.words {
            if let Some(object) = &mut self.object {
                set_words(object, state.words);
            }
        }
        mem::swap(&mut self.state, state);
    }
}
