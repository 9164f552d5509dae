//! Runs of the first entry of the first private queue: at once, or as a job that takes the object away meanwhile.

ghost use Rattle.std.specs.Prelude.{◌≡◌, ◌≢◌, ◌↔◌, IsTrue, IsOk, OnOk, IfOk, IfErr, Some};
ghost use Rattle.std.specs.Option.{option_map};
ghost use Rattle.scoop_handler.specs.Core.{IsCore};
ghost use Rattle.scoop_handler.specs.Growing.{MarksGrow};
ghost use Rattle.scoop_handler.specs.Running.{after, begun, finished, job_out, ran_of, ready, run};

use crate::error::{AfterError, StrangerJob};
use crate::handler::Handler;
use crate::job::{Done, Job, run_entry};
use crate::ran::Ran;
use crate::state::HandlerState;
use scoop_object::Behaviour;
use std::alloc::Allocator;

impl<B: Behaviour, A: Allocator> Handler<B, A> {
    /// Runs the first entry of the first private queue. Returns `None`, with nothing changed, exactly if there is
    /// no private queue, the first one has no entry, or a job is out. Takes no memory.
    pub fn run(&mut self) -> Option<Ran>
        ensures ran { result ≡ option_map ran_of (ready self.old) }
        ensures state { self.new ≡ run self.old }
        ensures sound { IsCore self.new }
        ensures grows { MarksGrow self.old.state.marks self.new.state.marks }
    {
        let Some(object) = &mut self.object else {
            return None;
        };
        let (block, number, entry) = self.state.queues().front()?;
        let answer = run_entry(object, &entry);
        let ran = Ran {
            block,
            number,
            entry,
            answer,
        };
        let words = object.words();
        self.state.run_first(&ran, words);
        Some(ran)
    }

    /// Starts the first entry of the first private queue as a job, which takes the object away. The entry stays in
    /// its private queue until the job is finished. Returns `None` exactly if `run` would. Takes no memory.
    pub fn begin(&mut self) -> Option<Job<B>>
        ensures job { result ≡ ready self.old }
        ensures state { self.new ≡ begun self.old }
        ensures sound { IsCore self.new }
    {
        let first = self.state.queues.front()?;
        let object = self.object.take()?;
        Some(Job::new(self.state.number, first, self.state.words, object))
    }

    /// Takes the object of a job back, with the effect of its entry. Takes no memory.
    ///
    /// Returns `StrangerJob`, with the job and nothing changed, exactly if no job is out, or handler, block,
    /// number, entry, class or starting words aren't those of the job that is out.
    pub fn finish(&mut self, done: Done<B>) -> Result<Ran, StrangerJob<B>>
        ensures accepted { IsOk result ↔ (job_out self.old ≡ Some done) }
        ensures ran { IfOk result (λ ran. ran ≡ ran_of done) }
        ensures state { OnOk result (self.new ≡ finished done self.old) }
        ensures refused { IfErr result (λ e. (self.new ≡ self.old) × (e.0 ≡ done)) }
        ensures sound { IsCore self.new }
        ensures grows { MarksGrow self.old.state.marks self.new.state.marks }
    {
        if !self.is_out(&done) {
            return Err(StrangerJob(done));
        }
        Ok(self.take_back(done))
    }

    /// Takes the object of the job that is out back, as [`Handler::finish`] does.
    pub fn take_back(&mut self, done: Done<B>) -> Ran
        requires { job_out self.old ≡ Some done }
        ensures ran { result ≡ ran_of done }
        ensures state { self.new ≡ finished done self.old }
        ensures sound { IsCore self.new }
        ensures grows { MarksGrow self.old.state.marks self.new.state.marks }
    {
        let ran = done.ran();
        self.state.run_first(&ran, done.words());
        self.object = Some(done.into_object());
        ran
    }

    /// Changes a copy of the handler's state as `finish` would change the state. Takes no memory.
    pub fn finish_state(&self, done: &Done<B>, state: &mut HandlerState<A>)
        requires out { job_out self.now ≡ Some done.now }
        requires own { state.old ≡ self.now.state }
        ensures { state.new ≡ after done.now self.now.state }
    {
        state.run_first(&done.ran(), done.words());
    }

    /// Whether a job is the one that is out.
    pub fn is_out(&self, done: &Done<B>) -> bool
        ensures out { IsTrue result ↔ (job_out self.now ≡ Some done.now) }
        ensures sound { IsCore self.now }
    {
        match (&self.object, self.state.queues.front()) {
            (None, Some(first)) => {
                done.is_of(self.state.number, first, &self.class, &self.state.words)
            }
            _ => false,
        }
    }
}

impl<B: Behaviour, A: Allocator + Copy> Handler<B, A> {
    /// The state that `finish` would give, kept with the same allocator.
    ///
    /// `Stranger` comes exactly if `finish` would refuse the job; then `OutOfMemory`.
    pub fn after_finish(&self, done: &Done<B>) -> Result<HandlerState<A>, AfterError>
        ensures out { OnOk result (job_out self.now ≡ Some done.now) }
        ensures state { IfOk result (λ s. s ≡ after done.now self.now.state) }
        ensures stranger { IfErr result (λ e. (e ≡ AfterError.Stranger) ↔ (job_out self.now ≢ Some done.now)) }
    {
        if !self.is_out(done) {
            return Err(AfterError::Stranger);
        }
        let mut state = self.copy()?;
        self.finish_state(done, &mut state);
        Ok(state)
    }
}
