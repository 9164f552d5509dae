//! Restarts of clients and nodes.

ghost use Rattle.std.specs.Prelude.{◌≡◌, ◌==◌, length, map, IfOk, OnErr, OnOk};
ghost use Rattle.std.specs.List.{AllByRecursion, list_any};
ghost use Rattle.scoop_model.specs.World.{party_of};
ghost use Rattle.scoop_model.specs.Step.{reopened, restart_client, restart_node};
ghost use Rattle.scoop_model.specs.Reach.{IsReached};
ghost use Rattle.scoop_world.specs.Kept.{HasState, on_node, stored_on};
ghost use Rattle.scoop_world.specs.Answers.{Takes};

use crate::parts::{Parts, party_at};
use crate::site::Site;
use scoop_handler::HandlerState;
use scoop_keeper::{Keeper, MemoryKeeper};
use scoop_message::{ClientId, OutOfMemory};
use scoop_model::{WorldError, WorldNote};
use scoop_object::Behaviour;
use std::alloc::Allocator;

// Whether the handler stands on the node.
fn is_on<B: Behaviour, A: Allocator + Copy>(site: &Site<B, A>, node: u32) -> bool
    ensures { result ≡ on_node node site.now }
{
    site.node() == node
}

// Whether a handler stands on the node.
fn any_on<B: Behaviour, A: Allocator + Copy>(sites: &[Site<B, A>], node: u32) -> bool
    ensures { result ≡ list_any (on_node node) sites.now }
{
    for site in sites {
        if is_on(site, node) {
            return true;
        }
    }
    false
}

// The stored state of the handler, if it stands on this node.
fn load<B: Behaviour, A: Allocator + Copy>(
    site: &Site<B, A>,
    node: u32,
    keeper: &mut MemoryKeeper<A>,
) -> Result<Option<HandlerState<A>>, OutOfMemory>
    requires { HasState keeper.old site.now }
    ensures found { IfOk result (λ found. found ≡ stored_on node site.now) }
    ensures keeper { keeper.new ≡ keeper.old }
{
    if site.node() != node {
        return Ok(None);
    }
    match keeper.load_handler(site.number()) {
        Ok(found) => Ok(found),
        Err(_) => Err(OutOfMemory),
    }
}

// The stored states of the handlers that stand on this node, each at its handler's place.
fn load_all<B: Behaviour, A: Allocator + Copy>(
    alloc: A,
    sites: &[Site<B, A>],
    node: u32,
    keeper: &mut MemoryKeeper<A>,
) -> Result<Vec<Option<HandlerState<A>>, A>, OutOfMemory>
    requires { AllByRecursion (HasState keeper.old) sites.now }
    ensures found { IfOk result (λ states. states.items ≡ map (stored_on node) sites.now) }
    ensures keeper { keeper.new ≡ keeper.old }
{
    let mut states = Vec::new(alloc);
    for site in sites {
        let state = load(site, node, keeper)?;
        states.push(state)?;
    }
    Ok(states)
}

// The handler takes its stored state, if it stands on the node.
fn reopen_with<B: Behaviour, A: Allocator + Copy>(
    site: &mut Site<B, A>,
    node: u32,
    found: Option<HandlerState<A>>,
)
    requires { found ≡ stored_on node site.old }
    ensures { site.new ≡ reopened node site.old }
{
    if let Some(state) = found {
        site.reopen(state);
    }
}

// Each handler takes its stored state, if it stands on the node.
fn reopen_all<B: Behaviour, A: Allocator + Copy>(
    sites: &mut [Site<B, A>],
    node: u32,
    states: Vec<Option<HandlerState<A>>, A>,
)
    requires { states.items ≡ map (stored_on node) sites.old }
    ensures { sites.new ≡ map (reopened node) sites.old }
{
    let mut states = states;
    for i in 0..sites.len() {
        let cell = &mut states[i];
        let found = cell.take();
        let site = &mut sites[i];
        reopen_with(site, node, found);
    }
}

impl<B: Behaviour, A: Allocator + Copy> Parts<B, A> {
    /// The client restarts with its next incarnation.
    pub(crate) fn restart_client(&mut self, client: ClientId) -> Result<WorldNote, WorldError>
        requires { IsReached self.old }
        ensures { Takes (restart_client self.old (party_of client self.old)) result self.old self.new }
    {
        let Some(at) = party_at(&self.parties, client) else {
            return Err(WorldError::NoSuchParty);
        };
        let party = &mut self.parties[at];
        match party.restart(&mut self.keeper) {
            Ok(inc) => Ok(WorldNote::Restarted(inc)),
            Err(error) => Err(error),
        }
    }

    /// The node restarts with the stored states of its handlers.
    pub(crate) fn restart_node(&mut self, node: u32) -> Result<WorldNote, WorldError>
        requires { IsReached self.old }
        ensures { Takes (restart_node self.old node) result self.old self.new }
    {
        if !any_on(&self.sites, node) {
            return Err(WorldError::NoSuchParty);
        }
        let alloc = *self.sent.allocator();
        let Ok(states) = load_all(alloc, &self.sites, node, &mut self.keeper) else {
            return Err(WorldError::OutOfMemory);
        };
        reopen_all(&mut self.sites, node, states);
        Ok(WorldNote::Reopened)
    }
}
