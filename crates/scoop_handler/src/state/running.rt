//! The state after a run of the first entry of the first private queue.

ghost use Rattle.std.specs.Prelude.{◌≡◌, length, Some};
ghost use Rattle.scoop_queue.specs.Queue.{front};
ghost use Rattle.scoop_handler.specs.Running.{after_ran};

use crate::marks::keep_answer_in;
use crate::ran::Ran;
use crate::state::HandlerState;
use scoop_message::Words;
use std::alloc::Allocator;

impl<A: Allocator> HandlerState<A> {
    /// Takes the first entry of the first private queue, which has run, and keeps its answer. The object now has
    /// these words.
    pub(crate) fn run_first(&mut self, ran: &Ran, words: Words)
        requires first { front self.old.queues ≡ Some (ran.now.block, ran.now.number, ran.now.entry) }
        requires words { length words ≡ length self.old.words }
        ensures { self.new ≡ after_ran ran.now words self.old }
    {
        self.queues.advance();
        keep_answer_in(&mut self.marks, ran);
        self.words = words;
    }
}
