//! The choice of what is next in a running world.

ghost use Rattle.std.specs.Prelude.{◌≡◌, ◌↔◌, None, IfOk, map};
ghost use Rattle.scoop_client.specs.declared.command.Command.TheVariants.{End as DoEnd};
ghost use Rattle.scoop_client.specs.Commands.{command};
ghost use Rattle.std.specs.Result.{is_ok};
ghost use Rattle.scoop_calm.specs.Settling.{Calm};
ghost use Rattle.scoop_calm.specs.Next.{next_of, next_ask, next_end};
ghost use Rattle.scoop_world.specs.Standing.{standing};
ghost use Rattle.scoop_calm.specs.Standing.{can_leave, first_out, first_to_begin};

use crate::asking::first_ask;
use crate::next::Next;
use crate::settling::calm_has_no_next;
use scoop_client::Client;
use scoop_message::OutOfMemory;
use scoop_object::Behaviour;
use scoop_world::{Standing, World};
use std::alloc::Allocator;

// Whether a job is out.
fn is_out<A: Allocator>(standing: &Standing<A>) -> bool
    ensures { result ≡ standing.now.is_out }
{
    standing.is_out()
}

// The first job that is out is finished.
fn first_out<A: Allocator>(states: &[Standing<A>]) -> Option<Next>
    ensures { result ≡ first_out states.now }
{
    for standing in states {
        if is_out(standing) {
            return Some(Next::Finish(standing.state().handler()));
        }
    }
    None
}

// Whether the next entry can leave.
fn can_leave<A: Allocator>(standing: &Standing<A>) -> bool
    ensures { result ≡ can_leave standing.now }
{
    let queues = standing.state().queues();
    !standing.is_out() && queues.front().is_some()
}

// The first entry that can leaves to be run.
fn first_to_begin<A: Allocator>(states: &[Standing<A>]) -> Option<Next>
    ensures { result ≡ first_to_begin states.now }
{
    for standing in states {
        if can_leave(standing) {
            return Some(Next::Begin(standing.state().handler()));
        }
    }
    None
}

// The first client that can asks the first handler that can do it.
fn ask<B: Behaviour, A: Allocator + Copy>(
    world: &World<B, A>,
    states: &[Standing<A>],
) -> Option<Next>
    requires { states.now ≡ map standing world.now.sites }
    ensures { result ≡ next_ask world.now.sites world.now.parties }
{
    for place in 0..world.clients() {
        let Some((id, client)) = world.client(place) else {
            unreachable!()
        };
        let next = first_ask(id, client, states);
        if next.is_some() {
            return next;
        }
    }
    None
}

// Whether the client can end its block.
fn can_end<A: Allocator>(client: &Client<A>) -> bool
    ensures { result ≡ is_ok (command client.now DoEnd) }
{
    client.may_end().is_ok()
}

// The first client that can ends its block.
fn end<B: Behaviour, A: Allocator + Copy>(world: &World<B, A>) -> Option<Next>
    ensures { result ≡ next_end world.now }
{
    for place in 0..world.clients() {
        let Some((id, client)) = world.client(place) else {
            unreachable!()
        };
        if can_end(client) {
            return Some(Next::End(id));
        }
    }
    None
}

// The next event, by how the handlers stand.
fn first_of<B: Behaviour, A: Allocator + Copy>(
    world: &World<B, A>,
    states: &[Standing<A>],
) -> Option<Next>
    requires { states.now ≡ map standing world.now.sites }
    ensures { result ≡ next_of world.now }
{
    let finish = first_out(states);
    if finish.is_some() {
        return finish;
    }
    let begin = first_to_begin(states);
    if begin.is_some() {
        return begin;
    }
    let ask = ask(world, states);
    if ask.is_some() {
        return ask;
    }
    end(world)
}

/// Returns what is next in the world, and `None` exactly if the world is calm. It is the first of these that there is:
///
/// - a job that is out is finished;
/// - an entry leaves to be run;
/// - a client asks a handler for something that the handler can do;
/// - a client ends its block.
///
/// The search looks at each pair of a client and a handler once, and at no message. `OutOfMemory` is the one refusal.
pub fn next_of<B: Behaviour, A: Allocator + Copy>(
    world: &World<B, A>,
) -> Result<Option<Next>, OutOfMemory>
    ensures next { IfOk result (λ next. next ≡ next_of world.now) }
    ensures calm { IfOk result (λ next. (next ≡ None) ↔ Calm world.now) }
{
    // For the prover: where it is calm nothing is next, and the other way round.
    calm_has_no_next();
    let states = world.states()?;
    Ok(first_of(world, &states))
}
