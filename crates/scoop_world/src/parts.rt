//! The parts of a world.

ghost use Rattle.std.specs.Prelude.{◌≡◌, ◌<◌, ◌-◌, [], None, find, length, map, slice_get, option_and_then, MatchOption, IfOk};
ghost use Rattle.std.specs.Option.{option_map};
ghost use Rattle.scoop_model.specs.World.{is_site, is_party, logged_at, party_of, sent_at, site_of};
ghost use Rattle.scoop_keeper.specs.Keyed.{IsFirst};
ghost use Rattle.scoop_world.specs.Kept.{HasAll, entries_in, world_kept};
ghost use Rattle.scoop_world.specs.Standing.{numbered, standing};

mod commanding;
mod hearing;
mod jobs;
mod restarting;
mod sending;

use crate::logs::{Logs, block_at, logged, logged_by};
use crate::party::Party;
use crate::site::Site;
use crate::standing::Standing;
use indexmap::{IndexMap, IndexSet};
use scoop_client::Client;
use scoop_keeper::MemoryKeeper;
use scoop_message::{Block, ClientId, Entry, HandlerId, Message, OutOfMemory};
use scoop_object::Behaviour;
use std::alloc::Allocator;
use std::hash::{BuildHasherDefault, FoldHasher};
use std::marker::Model;

/// The blocks of the common list, in the order of their first openings anywhere.
pub(crate) type Joint<A> = IndexSet<Block, BuildHasherDefault<FoldHasher>, A>;

/// All parties, every message ever sent, and what has happened so far. The keeper has the state of each
/// handler and the incarnation of each client.
#[derive(Drop)]
pub(crate) struct Parts<B: Behaviour, A: Allocator> {
    sites: Vec<Site<B, A>, A>,
    parties: Vec<Party<A>, A>,
    sent: Vec<Message, A>,
    joint: Joint<A>,
    logs: Logs<A>,
    keeper: MemoryKeeper<A>,
}

impl<B: Behaviour, A: Allocator> Model for Parts<B, A> {
    ghost use Rattle.scoop_model.specs.World.{World as Whole};
    ghost use Rattle.scoop_world.specs.Kept.{HasAll, logs_kept, world_kept};

    ghost Value = { Whole };

    ghost view = { λ p. world_kept p.sites.items p.parties.items p.sent.items p.joint.keys (logs_kept p.logs.entries) };

    ghost invariant = { λ p. HasAll p.keeper p.sites.items p.parties.items };
}

/// The place of a handler.
pub(crate) fn site_at<B: Behaviour, A: Allocator + Copy>(
    sites: &[Site<B, A>],
    handler: HandlerId,
) -> Option<usize>
    ensures { MatchOption result (find (is_site handler) sites.now ≡ None) (IsFirst (is_site handler) sites.now) }
{
    for (i, site) in sites.iter().enumerate() {
        if site.number() == handler {
            return Some(i);
        }
    }
    None
}

/// The place of a client.
pub(crate) fn party_at<A: Allocator + Copy>(parties: &[Party<A>], client: ClientId) -> Option<usize>
    ensures { MatchOption result (find (is_party client) parties.now ≡ None) (IsFirst (is_party client) parties.now) }
{
    for (i, party) in parties.iter().enumerate() {
        if party.id() == client {
            return Some(i);
        }
    }
    None
}

// The state of each of these handlers, and whether a job of it is out.
fn states_of<B: Behaviour, A: Allocator + Copy>(
    alloc: A,
    sites: &[Site<B, A>],
) -> Result<Vec<Standing<A>, A>, OutOfMemory>
    ensures { IfOk result (λ states. states.items ≡ map standing sites.now) }
{
    let mut states = Vec::new(alloc);
    for site in sites {
        let state = site.state()?;
        states.push(Standing::of(state, site.is_out()))?;
    }
    Ok(states)
}

impl<B: Behaviour, A: Allocator + Copy> Parts<B, A> {
    /// A world in which nothing has happened, with these parties. The keeper has their states and
    /// incarnations.
    pub(crate) fn new(
        alloc: A,
        sites: Vec<Site<B, A>, A>,
        parties: Vec<Party<A>, A>,
        keeper: MemoryKeeper<A>,
    ) -> Parts<B, A>
        requires { HasAll keeper sites.items parties.items }
        ensures { result ≡ world_kept sites.items parties.items [] [] [] }
    {
        Parts {
            sites,
            parties,
            sent: Vec::new(alloc),
            joint: IndexSet::new(alloc),
            logs: IndexMap::new(alloc),
            keeper,
        }
    }

    /// The blocks of the common list.
    pub(crate) fn joint(&self) -> &[Block]
        ensures { result.now ≡ self.now.joint }
    {
        self.joint.as_slice()
    }

    /// The handler of this number.
    pub(crate) fn site(&self, handler: HandlerId) -> Option<&Site<B, A>>
        ensures { option_map (λ s. s.now) result ≡ site_of handler self.now }
    {
        match site_at(&self.sites, handler) {
            Some(at) => Some(&self.sites[at]),
            None => None,
        }
    }

    /// The client of this number.
    pub(crate) fn party(&self, client: ClientId) -> Option<&Party<A>>
        ensures { option_map (λ p. p.now) result ≡ party_of client self.now }
    {
        match party_at(&self.parties, client) {
            Some(at) => Some(&self.parties[at]),
            None => None,
        }
    }

    /// How many clients there are.
    pub(crate) fn clients(&self) -> usize
        ensures { result ≡ length self.now.parties }
    {
        self.parties.len()
    }

    /// The client at a place, with its number.
    pub(crate) fn client(&self, place: usize) -> Option<(ClientId, &Client<A>)>
        ensures { option_map (λ c. (c.0, c.1.now)) result ≡ option_map numbered (slice_get self.now.parties place) }
    {
        match self.parties.get(place) {
            Some(party) => Some((party.id(), party.client())),
            None => None,
        }
    }

    /// The state of each handler, and whether a job of it is out.
    pub(crate) fn states(&self) -> Result<Vec<Standing<A>, A>, OutOfMemory>
        ensures { IfOk result (λ states. states.items ≡ map standing self.now.sites) }
    {
        states_of(*self.sent.allocator(), &self.sites)
    }

    /// The entries logged for a handler that the block has reserved.
    pub(crate) fn logged(&self, block: Block, handler: HandlerId) -> Option<&[Entry]>
        ensures { option_map (λ es. es.now) result ≡ logged_at block handler self.now }
    {
        logged(&self.logs, block, handler)
    }

    /// How many blocks were ever reserved.
    pub(crate) fn blocks(&self) -> usize
        ensures { result ≡ length self.now.logs }
    {
        self.logs.len()
    }

    /// The block at a place, in the order of the reserves.
    pub(crate) fn block(&self, place: usize) -> Option<Block>
        ensures { result ≡ option_map (λ l. l.block) (slice_get self.now.logs place) }
    {
        block_at(&self.logs, place)
    }

    /// The entries logged for a handler by the client of the block at a place.
    pub(crate) fn logged_by(&self, place: usize, handler: HandlerId) -> Option<&[Entry]>
        ensures { option_map (λ es. es.now) result
            ≡ option_and_then (λ l. entries_in handler l.shares) (slice_get self.now.logs place) }
    {
        logged_by(&self.logs, place, handler)
    }

    /// The i-th sent message, i from 1.
    pub(crate) fn sent(&self, i: usize) -> Option<&Message>
        ensures { option_map (λ m. m.now) result ≡ sent_at i self.now }
    {
        if i == 0 {
            return None;
        }
        self.sent.get(i - 1)
    }
}
