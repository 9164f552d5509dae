//! The making and the copying of a handler.

ghost use Rattle.std.specs.Prelude.{◌≡◌, ◌↔◌, length, IsOk, IfOk, IfErr, false};
ghost use Rattle.scoop_handler.specs.State.{new_state};
ghost use Rattle.scoop_handler.specs.Core.{core_of};
ghost use Rattle.scoop_handler.specs.Running.{FitsClass};

use crate::error::WrongClass;
use crate::handler::Handler;
use crate::setting::set_words;
use crate::state::HandlerState;
use scoop_message::{HandlerId, OutOfMemory};
use scoop_object::{Behaviour, Class};
use scoop_queue::QueueOfQueues;
use std::alloc::Allocator;

impl<B: Behaviour, A: Allocator + Copy> Handler<B, A> {
    /// Makes a handler that no client has greeted yet, with its object. Takes no memory yet.
    ///
    /// Returns `WrongClass`, with the object, exactly if the object hasn't the class.
    pub fn new(
        alloc: A,
        number: HandlerId,
        class: Class,
        object: B,
    ) -> Result<Handler<B, A>, WrongClass<B>>
        ensures accepted { IsOk result ↔ (B.class object ≡ class) }
        ensures made { IfOk result (λ h. h ≡ core_of class (new_state number (B.words object)) false) }
        ensures handed_back { IfErr result (λ e. e.0 ≡ object) }
    {
        if !object.has_class(&class) {
            return Err(WrongClass(object));
        }
        let state = HandlerState {
            number,
            holder: None,
            marks: Vec::new(alloc),
            queues: QueueOfQueues::new(alloc),
            words: object.words(),
        };
        Ok(Handler {
            class,
            state,
            object: Some(object),
        })
    }

    /// The handler's state, kept with the same allocator. `OutOfMemory` is the one refusal.
    pub fn copy(&self) -> Result<HandlerState<A>, OutOfMemory>
        ensures { IfOk result (λ copy. copy ≡ self.now.state) }
    {
        self.state.copy()
    }
}

impl<B: Behaviour, A: Allocator> Handler<B, A> {
    /// Makes a handler of a stored state, with no job out and its object set to the stored words. Takes no memory.
    ///
    /// Returns `WrongClass`, with the object as it was, exactly if the object hasn't the class, or the stored
    /// words are not as many as the class has.
    pub fn restart(
        class: Class,
        mut object: B,
        state: HandlerState<A>,
    ) -> Result<Handler<B, A>, WrongClass<B>>
        ensures accepted { IsOk result ↔ ((B.class object ≡ class) × FitsClass class state) }
        ensures made { IfOk result (λ h. h ≡ core_of class state false) }
        ensures handed_back { IfErr result (λ e. e.0 ≡ object) }
    {
        if !object.has_class(&class) || state.words.len() != class.words() {
            return Err(WrongClass(object));
        }
        set_words(&mut object, state.words);
        Ok(Handler {
            class,
            state,
            object: Some(object),
        })
    }
}
