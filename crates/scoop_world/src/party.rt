//! A client in the world, over all its incarnations.

ghost use Rattle.std.specs.Prelude.{◌≡◌, ◌<◌, ◌≤◌, ◌==◌, ◌+◌, ◌-◌, ◌^◌, ◌++◌, [], false, Some, vec_len, vec_capacity, IfErr, IfOk, OnOk, OnErr};
ghost use Rattle.scoop_client.specs.Due.{due};
ghost use Rattle.scoop_client.specs.Hearing.{heard};
ghost use Rattle.scoop_keeper.specs.Keeper.{Sets};
ghost use Rattle.scoop_keeper.specs.Memory.{incarnation_at};
ghost use Rattle.scoop_client.specs.Commands.{Foretells, IsRefused as IsClientRefusal, Outcome};
ghost use Rattle.scoop_world.specs.Answers.{IsRefusal};
ghost use Rattle.scoop_model.specs.Step.{newly_accepted};

use scoop_client::{Client, ClientError, ClientNote};
use scoop_keeper::{Keeper, MemoryKeeper};
use scoop_message::limits::MAX_ENTRIES;
use scoop_message::{Answer, Block, ClientId, HandlerId, Message, OutOfMemory};
use scoop_model::{Command, HandlerList, WorldError};
use std::alloc::Allocator;
use std::marker::Model;

/// A client with the answers that it has accepted, over all its incarnations. The keeper has its
/// incarnation.
#[derive(Drop)]
pub(crate) struct Party<A: Allocator> {
    // The newest block that the client began, with number 0 if this incarnation has begun none.
    newest: Block,
    client: Client<A>,
    accepted: Vec<(HandlerId, Block, u32, Answer), A>,
}

impl<A: Allocator> Model for Party<A> {
    ghost use Rattle.std.specs.Prelude.{◌≡◌};
    ghost use Rattle.scoop_model.specs.World.{Party as Member};
    ghost use Rattle.scoop_model.specs.Step.{newest_block};
    ghost use Rattle.scoop_world.specs.Kept.{party_kept};

    ghost Value = { Member };

    ghost view = { λ p. party_kept p.newest p.client p.accepted.items };

    ghost invariant = { λ p. newest_block p.client ≡ p.newest };
}

// The reason why a reserve isn't taken, as an event reports it.
fn refused(error: ClientError) -> WorldError
    ensures { (outcome : Outcome) → IsClientRefusal outcome error → IsRefusal outcome result }
{
    match error {
        ClientError::OutOfMemory => WorldError::OutOfMemory,
        other => WorldError::ClientRefused(other),
    }
}

// The reason why a command isn't taken if there is no room for its entries, by the client's refusal.
fn refused_or_full(test: Result<(), ClientError>) -> WorldError
    ensures { (outcome : Outcome) → Foretells outcome test → IsRefusal outcome result }
{
    match test {
        Ok(()) => WorldError::OutOfMemory,
        Err(error) => WorldError::ClientRefused(error),
    }
}

// Records an answer that this note reports as accepted. There is room for it.
fn accept<A: Allocator + Copy>(
    accepted: &mut Vec<(HandlerId, Block, u32, Answer), A>,
    block: Block,
    note: ClientNote,
)
    requires { vec_len accepted.old < vec_capacity accepted.old }
    ensures { accepted.new.items ≡ accepted.old.items ++ newly_accepted block note }
{
    if let ClientNote::Accepted(handler, number, answer) = note {
        accepted.push_reserved((handler, block, number, answer));
    }
}

impl<A: Allocator + Copy> Party<A> {
    ghost use Rattle.scoop_client.specs.State.{block_named};
    ghost use Rattle.scoop_client.specs.Beginning.{greeting};
    ghost use Rattle.scoop_model.specs.World.{id_of};
    ghost use Rattle.scoop_model.specs.Step.{heard_party, newest_block, restarted_party};
    ghost use Rattle.scoop_world.specs.Answers.{Commands, IsRestartRefusal, RefusesLog, outcome_of};
    ghost use Rattle.scoop_world.specs.Kept.{party_kept};

    /// Makes a client that begins in this incarnation, which is stored.
    pub(crate) fn new(
        alloc: A,
        id: ClientId,
        inc: u32,
        handlers: &[HandlerId],
        batch: u8,
    ) -> Result<Party<A>, OutOfMemory>
        requires inc { 1 ≤ inc }
        requires some { 1 ≤ batch }
        requires limit { batch ≤ MAX_ENTRIES }
        ensures { IfOk result (λ p. p ≡ party_kept (block_named id inc 0) (greeting id inc handlers.now 0 batch) []) }
    {
        let Ok(client) = Client::begin_batched(alloc, id, inc, handlers, batch) else {
            return Err(OutOfMemory);
        };
        Ok(Party {
            newest: Block {
                client: id,
                inc,
                num: 0,
            },
            client,
            accepted: Vec::new(alloc),
        })
    }

    /// The client's number.
    pub(crate) fn id(&self) -> ClientId
        ensures { result ≡ id_of self.now }
    {
        self.newest.client
    }

    /// The client.
    pub(crate) fn client(&self) -> &Client<A>
        ensures { result.now ≡ self.now.client }
    {
        &self.client
    }

    /// The newest block that it began.
    pub(crate) fn newest(&self) -> Block
        ensures { result ≡ newest_block self.now.client }
    {
        self.newest
    }

    /// The answers that it has accepted, in their order.
    pub(crate) fn accepted(&self) -> &[(HandlerId, Block, u32, Answer)]
        ensures { result.now ≡ self.now.accepted }
    {
        &self.accepted
    }

    /// The message owed to a handler now.
    pub(crate) fn due(&self, handler: HandlerId) -> Option<Message>
        ensures { result ≡ due self.now.client handler }
    {
        self.client.due(handler)
    }

    /// Takes a command.
    pub(crate) fn command(&mut self, command: &Command) -> Result<(), WorldError>
        ensures taken { Commands (outcome_of self.old.client command.now) result self.old self.new }
        ensures id { id_of self.new ≡ id_of self.old }
        ensures stored { self.new.stored ≡ self.old.stored }
    {
        let taken = match *command {
            Command::Reserve(handlers) => return self.reserve(&handlers),
            Command::Call(handler, request) => self.client.call(handler, request),
            Command::Query(handler, request) => self.client.query(handler, request),
            Command::End => self.client.end(),
            Command::GiveUp => self.client.give_up(),
        };
        match taken {
            Ok(()) => Ok(()),
            Err(error) => Err(WorldError::ClientRefused(error)),
        }
    }

    // Begins a block.
    fn reserve(&mut self, handlers: &HandlerList) -> Result<(), WorldError>
        ensures taken { Commands (outcome_of self.old.client (Command.Reserve handlers.now)) result self.old self.new }
        ensures id { id_of self.new ≡ id_of self.old }
        ensures stored { self.new.stored ≡ self.old.stored }
    {
        if let Err(error) = self.client.reserve(handlers.as_slice()) {
            return Err(refused(error));
        }
        if let Some(block) = self.client.block() {
            self.newest = block;
        }
        Ok(())
    }

    /// The reason why a block over these handlers doesn't begin, if there is no room for its entries.
    pub(crate) fn no_room_to_reserve(&self, handlers: &HandlerList) -> WorldError
        ensures { IsRefusal (outcome_of self.now.client (Command.Reserve handlers.now)) result }
    {
        refused_or_full(self.client.may_reserve(handlers.as_slice()))
    }

    /// The reason why an entry for one handler, or an End for all, isn't logged, if there is no room for it.
    pub(crate) fn no_room_to_log(&self, only: Option<HandlerId>) -> WorldError
        ensures { RefusesLog self.now.client only result }
    {
        match only {
            Some(handler) => refused_or_full(self.client.may_log(handler)),
            None => refused_or_full(self.client.may_end()),
        }
    }

    /// Hears a message. `OutOfMemory` changes nothing.
    pub(crate) fn hear(&mut self, message: &Message) -> Result<ClientNote, OutOfMemory>
        ensures party { OnOk result (self.new ≡ heard_party self.old (heard self.old.client message.now)) }
        ensures note { IfOk result (λ note. note ≡ (heard self.old.client message.now).1) }
        ensures id { id_of self.new ≡ id_of self.old }
        ensures stored { self.new.stored ≡ self.old.stored }
        ensures err { OnErr result (self.new ≡ self.old) }
    {
        self.accepted.reserve(1)?;
        let note = self.client.hear(message);
        accept(&mut self.accepted, self.newest, note);
        Ok(note)
    }

    /// Restarts with its next incarnation, which is stored, and greets again. A refusal changes
    /// nothing: `IncarnationsSpent`, `OutOfMemory`.
    pub(crate) fn restart(&mut self, keeper: &mut MemoryKeeper<A>) -> Result<u32, WorldError>
        requires { incarnation_at keeper.old (id_of self.old).0 ≡ Some self.old.stored }
        ensures next { IfOk result (λ inc. inc ≡ self.old.stored + 1) }
        ensures unspent { OnOk result (self.old.stored == 2 ^ 32 - 1 ≡ false) }
        ensures party { OnOk result (self.new ≡ restarted_party self.old) }
        ensures stored { OnOk result (Sets (incarnation_at keeper.old) (incarnation_at keeper.new) (id_of self.old).0 (self.old.stored + 1)) }
        ensures states { keeper.new.states ≡ keeper.old.states }
        ensures named { IfErr result (IsRestartRefusal self.old.stored) }
        ensures err { OnErr result (self.new ≡ self.old) }
        ensures kept { OnErr result (keeper.new ≡ keeper.old) }
    {
        let id = self.newest.client;
        let Some(inc) = self.newest.inc.checked_add(1) else {
            return Err(WorldError::IncarnationsSpent);
        };
        let alloc = *self.accepted.allocator();
        let begun = Client::begin_batched(
            alloc,
            id,
            inc,
            self.client.handlers(),
            self.client.batch(),
        );
        let Ok(client) = begun else {
            return Err(WorldError::OutOfMemory);
        };
        if keeper.next_incarnation(id).is_err() {
            return Err(WorldError::OutOfMemory);
        }
        self.client = client;
        self.newest = Block {
            client: id,
            inc,
            num: 0,
        };
        Ok(inc)
    }
}
