//! A handler's state, as a value of its own.

ghost use Rattle.std.specs.Prelude.{◌≡◌, ◌↔◌, length, slice_get, IsTrue, IfErr, IfOk, OnOk, OnErr};
ghost use Rattle.scoop_handler.specs.State.{state_of, IsState};

mod changing;
mod conditions;
mod greeting;
mod hearing;
mod locking;
mod logging;
mod opening;
mod running;

use crate::copying::copy_parts;
use crate::mark::Mark;
use conditions::is_state;
use scoop_message::{Block, HandlerId, OutOfMemory, Words, same_words};
use scoop_queue::QueueOfQueues;
use std::alloc::{Allocator, Global};
use std::marker::Model;
use thiserror::Error;

/// Why parts make no handler's state, in the order in which it is tested.
#[derive(Clone, Copy, Debug, PartialEq, Eq, Error)]
pub enum StateError {
    /// No handler can have this state.
    #[error("BadState")]
    BadState,
    /// A growth of memory was refused.
    #[error("out of memory")]
    OutOfMemory,
}

/// The state of a handler: its number, the block that holds its lock, the marks of its clients, its private
/// queues, and its object's words. It doesn't say whether a job is out: then the job's entry is still pending, and
/// the words are those with which it left.
#[derive(Drop)]
pub struct HandlerState<A: Allocator = Global> {
    pub(crate) number: HandlerId,
    pub(crate) holder: Option<Block>,
    pub(crate) marks: Vec<Mark, A>,
    pub(crate) queues: QueueOfQueues<A>,
    pub(crate) words: Words,
}

impl<A: Allocator> Model for HandlerState<A> {
    ghost use Rattle.scoop_handler.specs.State.{HandlerState as State, IsState, state_of};

    ghost Value = { State };

    ghost view = { λ s. state_of s.number s.holder s.marks.items s.queues s.words };

    ghost invariant = { λ s. IsState (state_of s.number s.holder s.marks.items s.queues s.words) };
}

impl<A: Allocator> HandlerState<A> {
    /// Makes the state of these parts. The marks are kept with this allocator.
    ///
    /// Refused: `BadState` if a condition below isn't met, then `OutOfMemory`.
    /// - There are at most `MAX_MARKS` marks, by ascending client.
    /// - The holder is the block of a mark that is held or open, and a held mark's block is the holder.
    /// - Only an open block has received entries.
    /// - The block of a mark that is open and not ended has an open private queue.
    /// - Each private queue's client has a mark, whose block isn't below the queue's.
    /// - The queue of a mark's block agrees with the entries that the mark has received.
    /// - An open queue's block is that of an open mark that has not ended.
    /// - A cut queue isn't of its mark's incarnation.
    pub fn of(
        alloc: A,
        number: HandlerId,
        words: Words,
        holder: Option<Block>,
        marks: &[Mark],
        queues: QueueOfQueues<A>,
    ) -> Result<HandlerState<A>, StateError>
        ensures ok { IfOk result (λ s. s ≡ state_of number holder marks.now queues words) }
        ensures fits { OnOk result (IsState (state_of number holder marks.now queues words)) }
        ensures bad { IfErr result (λ e. (e ≡ StateError.BadState) ↔ (IsState (state_of number holder marks.now queues words) → ⊥)) }
    {
        if !is_state(&words, holder, marks, &queues) {
            return Err(StateError::BadState);
        }
        let Ok(marks) = Vec::from_slice(alloc, marks) else {
            return Err(StateError::OutOfMemory);
        };
        Ok(HandlerState {
            number,
            holder,
            marks,
            queues,
            words,
        })
    }

    /// The handler's number.
    pub fn handler(&self) -> HandlerId
        ensures value { result ≡ self.now.number }
        ensures state { IsState self.now }
    {
        self.number
    }

    /// The block that holds the lock.
    pub fn holder(&self) -> Option<Block>
        ensures { result ≡ self.now.holder }
    {
        self.holder
    }

    /// The object's words.
    pub fn words(&self) -> Words
        ensures { result ≡ self.now.words }
    {
        self.words
    }

    /// How many clients have a mark.
    pub fn marks(&self) -> usize
        ensures { result ≡ length self.now.marks }
    {
        self.marks.len()
    }

    /// The mark at a place, counted from 0, by ascending client.
    pub fn mark(&self, i: usize) -> Option<Mark>
        ensures { result ≡ slice_get self.now.marks i }
    {
        self.marks.get(i).copied()
    }

    /// The private queues, in the order in which they opened.
    pub fn queues(&self) -> &QueueOfQueues<A>
        ensures { result.now ≡ self.now.queues }
    {
        &self.queues
    }

    /// Whether the other one is the same state.
    pub fn same(&self, other: &HandlerState<A>) -> bool
        ensures { IsTrue result ↔ (self.now ≡ other.now) }
    {
        self.number.0 == other.number.0
            && same_holder(self.holder, other.holder)
            && same_marks(&self.marks, &other.marks)
            && same_words(&self.words, &other.words)
            && self.queues.same(&other.queues)
    }
}

fn same_holder(left: Option<Block>, right: Option<Block>) -> bool
    ensures { IsTrue result ↔ (left ≡ right) }
{
    left == right
}

fn same_marks(left: &[Mark], right: &[Mark]) -> bool
    ensures { IsTrue result ↔ (left.now ≡ right.now) }
{
    left == right
}

impl<A: Allocator + Copy> HandlerState<A> {
    /// The same state, kept with the same allocator. `OutOfMemory` is the one refusal.
    pub fn copy(&self) -> Result<HandlerState<A>, OutOfMemory>
        ensures { IfOk result (λ copy. copy ≡ self.now) }
    {
        Ok(HandlerState {
            number: self.number,
            holder: self.holder,
            marks: Vec::from_slice(*self.marks.allocator(), self.marks.as_slice())?,
            queues: self.queues.copy()?,
            words: self.words,
        })
    }

    /// Takes over the other state, in its own room if that is enough. An `Err` changes nothing; `OutOfMemory` is
    /// the one refusal.
    pub fn copy_from(&mut self, other: &HandlerState<A>) -> Result<(), OutOfMemory>
        ensures ok { OnOk result (self.new ≡ other.now) }
        ensures err { OnErr result (self.new ≡ self.old) }
    {
        copy_parts(
            &mut self.marks,
            &mut self.queues,
            &other.marks,
            &other.queues,
        )?;
        self.number = other.number;
        self.holder = other.holder;
        self.words = other.words;
        Ok(())
    }
}
