//! A world: all parties over a list of events.

ghost use Rattle.std.specs.Prelude.{◌≡◌, IfOk, length, map, slice_get, option_and_then};
ghost use Rattle.std.specs.Option.{option_map};
ghost use Rattle.scoop_model.specs.World.{logged_at, party_of, sent_at, site_of};
ghost use Rattle.scoop_model.specs.Step.{step};
ghost use Rattle.scoop_model.specs.Reach.{IsReached};
ghost use Rattle.scoop_world.specs.Answers.{Takes};
ghost use Rattle.scoop_world.specs.Kept.{entries_in};
ghost use Rattle.scoop_world.specs.Standing.{numbered, standing};
ghost use Rattle.scoop_rules.specs.Paper.{FollowsRules};

use crate::parts::Parts;
use crate::standing::Standing;
use scoop_client::Client;
use scoop_handler::Ran;
use scoop_message::{Answer, Block, ClientId, Entry, HandlerId, Message, OutOfMemory};
use scoop_model::{Event, WorldError, WorldNote};
use scoop_object::Behaviour;
use std::alloc::{Allocator, Global};
use std::marker::Model;

/// All parties together, every message that was ever sent, and the record of events. Some events lead from a world
/// that opens to this one.
#[derive(Drop)]
pub struct World<B: Behaviour, A: Allocator = Global> {
    pub(crate) parts: Parts<B, A>,
}

impl<B: Behaviour, A: Allocator> Model for World<B, A> {
    ghost use Rattle.scoop_model.specs.World.{World as Whole};
    ghost use Rattle.scoop_model.specs.Reach.{IsReached};

    ghost Value = { Whole };

    ghost view = { λ w. w.parts };

    ghost invariant = { λ w. IsReached w.parts };
}

impl<B: Behaviour, A: Allocator + Copy> World<B, A> {
    /// Takes one event. Its cost doesn't grow with the number of earlier events, on average: a list that grows
    /// copies its items now and then.
    ///
    /// Refused with nothing changed, in this order: `NoSuchMessage`, `NoSuchParty`, `NothingToRun`,
    /// `ClientRefused`, `IncarnationsSpent`, `OutOfMemory`.
    pub fn step(&mut self, event: Event) -> Result<WorldNote, WorldError>
        ensures takes { Takes (step self.old event) result self.old self.new }
        ensures reached { IsReached self.new }
        ensures follows { FollowsRules self.old event }
    {
        happen(&mut self.parts, event)
    }

    /// The common list: the blocks in the order of their first openings anywhere.
    pub fn joint(&self) -> &[Block]
        ensures { result.now ≡ self.now.joint }
    {
        self.parts.joint()
    }

    /// The blocks that have opened at the handler, in their order. `None` for an unknown handler.
    pub fn opened(&self, handler: HandlerId) -> Option<&[Block]>
        ensures { option_map (λ bs. bs.now) result ≡ option_map (λ s. s.opened) (site_of handler self.now) }
    {
        match self.parts.site(handler) {
            Some(site) => Some(site.opened()),
            None => None,
        }
    }

    /// The entries that the block's client has logged for the handler, in their order. `None` if the block never
    /// reserved the handler.
    pub fn logged(&self, block: Block, handler: HandlerId) -> Option<&[Entry]>
        ensures { option_map (λ es. es.now) result ≡ logged_at block handler self.now }
    {
        self.parts.logged(block, handler)
    }

    /// How many blocks were ever reserved.
    pub fn blocks(&self) -> usize
        ensures { result ≡ length self.now.logs }
    {
        self.parts.blocks()
    }

    /// The block at a place, counted from 0 in the order in which blocks were reserved. `None` past the last one.
    pub fn block(&self, place: usize) -> Option<Block>
        ensures { result ≡ option_map (λ l. l.block) (slice_get self.now.logs place) }
    {
        self.parts.block(place)
    }

    /// The entries that the client of the block at a place has logged for the handler, in their order. `None` past the
    /// last block, and if the block never reserved the handler.
    pub fn logged_by(&self, place: usize, handler: HandlerId) -> Option<&[Entry]>
        ensures { option_map (λ es. es.now) result
            ≡ option_and_then (λ l. entries_in handler l.shares) (slice_get self.now.logs place) }
    {
        self.parts.logged_by(place, handler)
    }

    /// The entries that have run at the handler, in their order. `None` for an unknown handler.
    pub fn ran(&self, handler: HandlerId) -> Option<&[Ran]>
        ensures { option_map (λ rs. rs.now) result ≡ option_map (λ s. s.ran) (site_of handler self.now) }
    {
        match self.parts.site(handler) {
            Some(site) => Some(site.ran()),
            None => None,
        }
    }

    /// The answers that the client has accepted over all its incarnations, in their order: handler, block, the
    /// query's number, and the answer. `None` for an unknown client.
    pub fn accepted(&self, client: ClientId) -> Option<&[(HandlerId, Block, u32, Answer)]>
        ensures { option_map (λ xs. xs.now) result ≡ option_map (λ p. p.accepted) (party_of client self.now) }
    {
        match self.parts.party(client) {
            Some(party) => Some(party.accepted()),
            None => None,
        }
    }

    /// How many clients have joined.
    pub fn clients(&self) -> usize
        ensures { result ≡ length self.now.parties }
    {
        self.parts.clients()
    }

    /// The client at a place, counted from 0 in the order in which they joined, with its number. `None` past the
    /// last one.
    pub fn client(&self, place: usize) -> Option<(ClientId, &Client<A>)>
        ensures { option_map (λ c. (c.0, c.1.now)) result ≡ option_map numbered (slice_get self.now.parties place) }
    {
        self.parts.client(place)
    }

    /// A copy of each handler's state, in the order of their placements, and whether a job of it is out.
    /// `OutOfMemory` is the one refusal.
    pub fn states(&self) -> Result<Vec<Standing<A>, A>, OutOfMemory>
        ensures states { IfOk result (λ states. states.items ≡ map standing self.now.sites) }
        ensures reached { IsReached self.now }
    {
        self.parts.states()
    }

    /// The i-th sent message, i from 1. `None` for 0 and past the last one.
    pub fn sent(&self, i: usize) -> Option<&Message>
        ensures { option_map (λ m. m.now) result ≡ sent_at i self.now }
    {
        self.parts.sent(i)
    }
}

// Takes one event.
fn happen<B: Behaviour, A: Allocator + Copy>(
    parts: &mut Parts<B, A>,
    event: Event,
) -> Result<WorldNote, WorldError>
    requires { IsReached parts.old }
    ensures { Takes (step parts.old event) result parts.old parts.new }
{
    match event {
        Event::Do(client, command) => parts.command(client, &command),
        Event::Tick(client, handler) => parts.tick(client, handler),
        Event::Take(place) => parts.take(place),
        Event::Begin(handler) => parts.begin(handler),
        Event::Finish(handler) => parts.finish(handler),
        Event::ClientRestart(client) => parts.restart_client(client),
        Event::NodeRestart(node) => parts.restart_node(node),
    }
}
