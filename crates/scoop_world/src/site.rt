//! A handler in the world: its node, the blocks that have opened here, and the entries that have run.

ghost use Rattle.std.specs.Prelude.{◌≡◌, ◌<◌, ◌++◌, [], ◌∷◌, false, vec_len, vec_capacity, IfNone, IfOk, IsSome, OnOk, OnErr, OnSome};
ghost use Rattle.std.specs.Option.{option_map};
ghost use Rattle.scoop_handler.specs.Core.{IsCore};
ghost use Rattle.scoop_handler.specs.Hearing.{hear};
ghost use Rattle.scoop_handler.specs.Running.{job_out, ran_of, ready};
ghost use Rattle.scoop_keeper.specs.Keeper.{Keeps};
ghost use Rattle.scoop_keeper.specs.Memory.{Has};

use scoop_handler::{Done, Handler, HandlerState, Heard, Note, Ran};
use scoop_keeper::{Keeper, MemoryKeeper, finish_beside, hear_beside};
use scoop_message::{Block, Entry, HandlerId, Message, OutOfMemory, Request, Words};
use scoop_object::Behaviour;
use std::alloc::Allocator;
use std::marker::Model;

/// A handler with its node and its record of events. The keeper has its state.
#[derive(Drop)]
pub(crate) struct Site<B: Behaviour, A: Allocator> {
    node: u32,
    placed: Words,
    handler: Handler<B, A>,
    // A copy of the handler's state, whose room is used again. None before it is needed.
    beside: Option<HandlerState<A>>,
    // The entry that has left, with its effect, which counts once it is finished.
    job: Option<Done<B>>,
    opened: Vec<Block, A>,
    ran: Vec<Ran, A>,
}

impl<B: Behaviour, A: Allocator> Model for Site<B, A> {
    ghost use Rattle.std.specs.Prelude.{◌≡◌, IfSome};
    ghost use Rattle.scoop_handler.specs.Running.{job_out};
    ghost use Rattle.scoop_model.specs.World.{Site as Place};
    ghost use Rattle.scoop_world.specs.Kept.{site_kept};

    ghost Value = { Place };

    ghost view = { λ s. site_kept s.node s.placed s.handler s.opened.items s.ran.items };

    ghost invariant = { λ s. (s.job ≡ job_out s.handler) × IfSome s.beside (λ b. b ≡ s.handler.state) };
}

// Records an entry that has run. There is room for it.
fn put_down<A: Allocator + Copy>(ran: &mut Vec<Ran, A>, new: &Ran)
    requires { vec_len ran.old < vec_capacity ran.old }
    ensures { ran.new.items ≡ ran.old.items ++ new.now ∷ [] }
{
    // For the prover: names the types that a `Ran` holds.
    let _parts: Option<(Entry, Request)> = None;
    ran.push_reserved(*new);
}

impl<B: Behaviour, A: Allocator + Copy> Site<B, A> {
    ghost use Rattle.scoop_model.specs.World.{number_of};
    ghost use Rattle.scoop_model.specs.Step.{begun_site, heard_site};
    ghost use Rattle.scoop_world.specs.Kept.{HasState, KeepsAll, Stores, StoresJob, after_job, began, site_kept};
    ghost use Rattle.scoop_model.specs.Step.{reopened_site};

    /// Makes a handler without events, with the words of its object.
    pub(crate) fn new(alloc: A, node: u32, handler: Handler<B, A>) -> Site<B, A>
        requires { handler.out ≡ false }
        ensures { result ≡ site_kept node handler.state.words handler [] [] }
    {
        let placed = handler.words();
        Site {
            node,
            placed,
            handler,
            beside: None,
            job: None,
            opened: Vec::new(alloc),
            ran: Vec::new(alloc),
        }
    }

    /// Stores its state.
    pub(crate) fn store(&self, keeper: &mut MemoryKeeper<A>) -> Result<(), OutOfMemory>
        ensures ok { OnOk result (Keeps (Has keeper.old) (Has keeper.new) self.now.stored) }
        ensures incarnations { keeper.new.incarnations ≡ keeper.old.incarnations }
    {
        let state = self.handler.copy()?;
        match keeper.put_handler(&state) {
            Ok(()) => Ok(()),
            Err(_) => Err(OutOfMemory),
        }
    }

    /// Its number.
    pub(crate) fn number(&self) -> HandlerId
        ensures value { result ≡ number_of self.now }
        ensures core { IsCore self.now.core }
    {
        self.handler.number()
    }

    /// Whether a job of it is out.
    pub(crate) fn is_out(&self) -> bool
        ensures { result ≡ self.now.core.out }
    {
        // For the prover: the handler is sound.
        let _sound = self.handler.number();
        self.job.is_some()
    }

    /// A copy of its state.
    pub(crate) fn state(&self) -> Result<HandlerState<A>, OutOfMemory>
        ensures { IfOk result (λ state. state ≡ self.now.core.state) }
    {
        self.handler.copy()
    }

    /// The node on which it runs.
    pub(crate) fn node(&self) -> u32
        ensures { result ≡ self.now.node }
    {
        self.node
    }

    /// The blocks that have opened here, in their order.
    pub(crate) fn opened(&self) -> &[Block]
        ensures { result.now ≡ self.now.opened }
    {
        &self.opened
    }

    /// The entries that have run here, in their order.
    pub(crate) fn ran(&self) -> &[Ran]
        ensures { result.now ≡ self.now.ran }
    {
        &self.ran
    }

    /// Hears a message, and stores the new state, if there is one. `OutOfMemory` changes nothing.
    pub(crate) fn hear(
        &mut self,
        keeper: &mut MemoryKeeper<A>,
        message: &Message,
    ) -> Result<Heard, OutOfMemory>
        requires { HasState keeper.old self.old }
        ensures heard { IfOk result (λ heard. heard ≡ (hear self.old.core.state message.now).1) }
        ensures site { OnOk result (self.new ≡ heard_site self.old (hear self.old.core.state message.now)) }
        ensures stored { OnOk result (Stores keeper.old keeper.new (hear self.old.core.state message.now).0) }
        ensures err { OnErr result (self.new ≡ self.old) }
        ensures kept { OnErr result (KeepsAll keeper.old keeper.new) }
    {
        self.opened.reserve(1)?;
        let told = hear_beside(&mut self.handler, &mut self.beside, keeper, true, message);
        let Ok(heard) = told else {
            return Err(OutOfMemory);
        };
        if let Note::Opened(block) = heard.note {
            self.opened.push_reserved(block);
        }
        Ok(heard)
    }

    /// The next entry leaves to be run: its block and number.
    pub(crate) fn begin(&mut self) -> Option<(Block, u32)>
        ensures began { result ≡ option_map began (ready self.old.core) }
        ensures site { OnSome result (self.new ≡ begun_site self.old) }
        ensures nothing { IfNone result (self.new ≡ self.old) }
    {
        let job = self.handler.begin()?;
        let began = (job.block(), job.number());
        self.job = Some(job.work());
        Some(began)
    }

    /// The entry that left has run: its object comes back, and the new state is stored. Returns `None` if no job
    /// is out. `OutOfMemory` changes nothing.
    pub(crate) fn finish(
        &mut self,
        keeper: &mut MemoryKeeper<A>,
    ) -> Result<Option<Ran>, OutOfMemory>
        ensures ran { IfOk result (λ ran. ran ≡ option_map ran_of (job_out self.old.core)) }
        ensures site { OnOk result (self.new ≡ after_job self.old (job_out self.old.core)) }
        ensures out { OnErr result (IsSome (job_out self.old.core)) }
        ensures stored { OnOk result (StoresJob (job_out self.old.core) keeper.old keeper.new self.new.stored) }
        ensures err { OnErr result (self.new ≡ self.old) }
        ensures kept { OnErr result (KeepsAll keeper.old keeper.new) }
    {
        let Some(done) = self.job.take() else {
            return Ok(None);
        };
        if self.ran.reserve(1).is_err() {
            self.job = Some(done);
            return Err(OutOfMemory);
        }
        match finish_beside(&mut self.handler, &mut self.beside, keeper, done) {
            Ok(ran) => {
                put_down(&mut self.ran, &ran);
                Ok(Some(ran))
            }
            Err(error) => {
                self.job = Some(error.done);
                Err(OutOfMemory)
            }
        }
    }

    /// The node has restarted: the handler takes its stored state, with no job out.
    pub(crate) fn reopen(&mut self, state: HandlerState<A>)
        requires { state ≡ self.old.stored }
        ensures { self.new ≡ reopened_site self.old }
    {
        match self.job.take() {
            Some(done) => {
                let Ok(()) = self.handler.recall(done.into_object(), state) else {
                    unreachable!()
                };
            }
            None => {
                let Ok(()) = self.handler.reset(state) else {
                    unreachable!()
                };
            }
        }
    }
}
