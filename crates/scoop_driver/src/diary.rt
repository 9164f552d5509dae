//! Diaries, which get each step of a driver.

ghost use Rattle.std.specs.Prelude.{◌≡◌, ◌<◌, ⊤, [], ◌∷◌, ◌++◌, Option, Some, None, List, IsErr, OnOk};
ghost use Rattle.scoop_driver.specs.declared.step.Step.{Step as Made};
ghost use Rattle.scoop_driver.specs.Steps.{noted};

use crate::step::{Received, Step};
use scoop_client::{Client, Command};
use scoop_message::OutOfMemory;
use std::alloc::{Allocator, Global};
use std::marker::Model;

/// The receiver of a driver's steps. Before each step the driver makes room for it, and makes no step if that is
/// refused. So a diary that keeps its steps keeps exactly those that were made. A diary may gather what it keeps: it is
/// called before the sends of each turn, and by [`crate::Driver::settle`] before an answer.
pub trait Diary<A: Allocator>: Drop {
    /// The steps so far, oldest first, if the diary keeps them.
    ghost steps: { Self → Option (List Made) };

    /// There is room for one more step.
    ghost has_room: { Self → Type 0 };

    /// All that has to be done before an answer is done.
    ghost is_settled: { Self → Type 0 };

    /// Room may be refused, and so may what comes before sends and before an answer.
    ghost wants_memory: { Type 0 };

    /// Makes room for one more step, or is refused and keeps all its steps.
    fn make_room(&mut self) -> Result<(), OutOfMemory>
        ensures room { OnOk result (has_room self.new) }
        ensures steps { steps self.new ≡ steps self.old }
        ensures refused { IsErr result → wants_memory };

    /// This client is about to send its due messages. If the diary refuses, nothing is sent.
    fn before_sends(&mut self, client: &Client<A>) -> Result<(), OutOfMemory>
        ensures steps { steps self.new ≡ steps self.old }
        ensures refused { IsErr result → wants_memory };

    /// The client's user is about to get an answer. If the diary refuses, it is as settled as it can be.
    fn before_answer(&mut self) -> Result<(), OutOfMemory>
        ensures settled { is_settled self.new }
        ensures steps { steps self.new ≡ steps self.old }
        ensures refused { IsErr result → wants_memory };

    /// The client has just taken this command.
    fn gave(&mut self, client: &Client<A>, command: Command)
        requires { has_room self.old }
        ensures { steps self.new ≡ noted (steps self.old) (Made.Gave command ∷ []) };

    /// This client has sent every due message to its handlers, and received this, which it hasn't heard yet.
    fn turned(&mut self, client: &Client<A>, received: Received)
        requires { has_room self.old }
        ensures { steps self.new ≡ noted (steps self.old) (Made.Turned received ∷ []) };

    /// This client has sent the messages due to its handlers before the one at this place, and the send to that
    /// one failed.
    fn broke(&mut self, client: &Client<A>, place: usize)
        requires { has_room self.old }
        ensures { steps self.new ≡ noted (steps self.old) (Made.Broke place ∷ []) };
}

/// A diary that keeps nothing.
#[derive(Clone, Copy, Debug, PartialEq, Eq)]
pub struct NoDiary;

impl<A: Allocator> Diary<A> for NoDiary {
    ghost steps = { λ _. None };

    ghost has_room = { λ _. ⊤ };

    ghost is_settled = { λ _. ⊤ };

    ghost wants_memory = { ⊥ };

    fn make_room(&mut self) -> Result<(), OutOfMemory> {
        Ok(())
    }

    fn before_sends(&mut self, _client: &Client<A>) -> Result<(), OutOfMemory> {
        Ok(())
    }

    fn before_answer(&mut self) -> Result<(), OutOfMemory> {
        Ok(())
    }

    fn gave(&mut self, _client: &Client<A>, _command: Command) {}

    fn turned(&mut self, _client: &Client<A>, _received: Received) {}

    fn broke(&mut self, _client: &Client<A>, _place: usize) {}
}

/// A diary that keeps every step. Contracts see the steps, and the room for more.
#[derive(Drop)]
pub struct StepList<A: Allocator = Global> {
    steps: Vec<Step, A>,
}

impl<A: Allocator> Model for StepList<A> {
    ghost use Rattle.std.specs.Prelude.{◌-◌, vec_len, vec_capacity};
    ghost use Rattle.scoop_driver.specs.Steps.{KeptSteps};

    ghost Value = { KeptSteps };

    ghost view = { λ l. record { steps = l.steps.items; room = vec_capacity l.steps - vec_len l.steps } };
}

impl<A: Allocator> StepList<A> {
    /// Makes a diary with no step yet.
    pub fn new(alloc: A) -> StepList<A>
        ensures { result.steps ≡ [] }
    {
        StepList {
            steps: Vec::new(alloc),
        }
    }

    /// The steps so far, oldest first.
    pub fn steps(&self) -> &[Step]
        ensures { result.now ≡ self.now.steps }
    {
        &self.steps
    }

    fn keep(&mut self, step: Step)
        requires { 0 < self.old.room }
        ensures { self.new.steps ≡ self.old.steps ++ step ∷ [] }
    {
        self.steps.push_reserved(step);
    }
}

impl<A: Allocator, C: Allocator> Diary<C> for StepList<A> {
    ghost steps = { λ l. Some l.steps };

    ghost has_room = { λ l. 0 < l.room };

    ghost is_settled = { λ _. ⊤ };

    ghost wants_memory = { ⊤ };

    fn make_room(&mut self) -> Result<(), OutOfMemory> {
        self.steps.reserve(1)?;
        Ok(())
    }

    fn before_sends(&mut self, _client: &Client<C>) -> Result<(), OutOfMemory> {
        Ok(())
    }

    fn before_answer(&mut self) -> Result<(), OutOfMemory> {
        Ok(())
    }

    fn gave(&mut self, _client: &Client<C>, command: Command) {
        self.keep(Step::Gave(command));
    }

    fn turned(&mut self, _client: &Client<C>, received: Received) {
        self.keep(Step::Turned(received));
    }

    fn broke(&mut self, _client: &Client<C>, place: usize) {
        self.keep(Step::Broke(place));
    }
}
