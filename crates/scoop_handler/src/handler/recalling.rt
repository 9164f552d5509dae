//! States that replace a handler's.

ghost use Rattle.std.specs.Prelude.{◌≡◌, ◌↔◌, IsTrue, IsOk, OnOk, IfErr, false};
ghost use Rattle.scoop_handler.specs.Core.{IsCore, core_of, with_state};
ghost use Rattle.scoop_handler.specs.Running.{MayRecall, MayReset, job_out};

use crate::handler::Handler;
use crate::setting::set_words;
use crate::state::HandlerState;
use scoop_object::Behaviour;
use std::alloc::Allocator;

impl<B: Behaviour, A: Allocator> Handler<B, A> {
    /// Makes this the state, and sets the object's words. A job that is out stays out. Takes no memory.
    ///
    /// Returns the state, with nothing changed, exactly if the handler's number differs, or the words are not as
    /// many as the class has. With a job out, the words must also be those with which it left, and the first
    /// pending entry must be its entry.
    pub fn reset(&mut self, state: HandlerState<A>) -> Result<(), HandlerState<A>>
        ensures accepted { IsOk result ↔ MayReset state self.old }
        ensures state { OnOk result (self.new ≡ with_state state self.old) }
        ensures refused { IfErr result (λ e. (self.new ≡ self.old) × (e ≡ state)) }
        ensures sound { IsCore self.new }
    {
        if !self.may_reset(&state) {
            return Err(state);
        }
        if let Some(object) = &mut self.object {
            set_words(object, state.words);
        }
        self.state = state;
        Ok(())
    }

    /// Takes the state, and with it the object of a dropped job, set to the state's words. No job is out
    /// afterwards. Takes no memory.
    ///
    /// Returns object and state, with nothing changed, exactly if no job is out, if the handler's number or the
    /// object's class differs, or if the words are not as many as the class has.
    pub fn recall(
        &mut self,
        mut object: B,
        state: HandlerState<A>,
    ) -> Result<(), (B, HandlerState<A>)>
        ensures accepted { IsOk result ↔ MayRecall (B.class object) state self.old }
        ensures state { OnOk result (self.new ≡ core_of self.old.class state false) }
        ensures refused { IfErr result (λ e. (self.new ≡ self.old) × ((e.0 ≡ object) × (e.1 ≡ state))) }
        ensures sound { IsCore self.new }
    {
        if !self.may_recall(&object, &state) {
            return Err((object, state));
        }
        set_words(&mut object, state.words);
        self.object = Some(object);
        self.state = state;
        Ok(())
    }

    // Whether `reset` takes the state.
    fn may_reset(&self, state: &HandlerState<A>) -> bool
        ensures may { IsTrue result ↔ MayReset state.now self.now }
        ensures sound { IsCore self.now }
    {
        let job_stays = self.object.is_some()
            || state.words == self.state.words && state.queues.front() == self.state.queues.front();
        state.number == self.state.number && state.words.len() == self.class.words() && job_stays
    }

    // Whether `recall` takes the object and the state.
    fn may_recall(&self, object: &B, state: &HandlerState<A>) -> bool
        ensures { IsTrue result ↔ MayRecall (B.class object.now) state.now self.now }
    {
        self.object.is_none()
            && state.number == self.state.number
            && state.words.len() == self.class.words()
            && object.has_class(&self.class)
    }
}
