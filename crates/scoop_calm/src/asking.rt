//! Whether a handler can do what a client asks for.

ghost use Rattle.std.specs.Prelude.{◌≡◌, ◌||◌, is_none};
ghost use Rattle.scoop_handler.specs.Marks.{mark_of};
ghost use Rattle.scoop_handler.specs.State.{is_holder};
ghost use Rattle.scoop_calm.specs.Next.{can_do, is_open_at};
ghost use Rattle.scoop_calm.specs.Standing.{gets_from, first_ask};

use crate::next::Next;
use scoop_client::Client;
use scoop_handler::{HandlerState, Mark, Stage};
use scoop_message::limits::MAX_QUEUES;
use scoop_message::{Block, ClientId, Message};
use scoop_world::Standing;
use std::alloc::Allocator;

/// The mark of a client.
pub(crate) fn mark_of<A: Allocator>(state: &HandlerState<A>, client: ClientId) -> Option<Mark>
    ensures { result ≡ mark_of client state.now.marks }
{
    for place in 0..state.marks() {
        let Some(mark) = state.mark(place) else {
            unreachable!()
        };
        if mark.client == client {
            return Some(mark);
        }
    }
    None
}

// Whether the lock is free, or the block's.
fn can_lock<A: Allocator>(state: &HandlerState<A>, block: Block) -> bool
    ensures { result ≡ is_none state.now.holder || is_holder state.now.holder block }
{
    match state.holder() {
        Some(holder) => holder == block,
        None => true,
    }
}

// Whether the block has opened here.
fn is_open<A: Allocator>(state: &HandlerState<A>, block: Block) -> bool
    ensures { result ≡ is_open_at block (mark_of block.client state.now.marks) }
{
    match mark_of(state, block.client) {
        Some(mark) => mark.num == block.num && mark.stage == Stage::Open,
        None => false,
    }
}

/// Whether the handler in this state can do what the message asks for.
pub(crate) fn can_do<A: Allocator>(state: &HandlerState<A>, message: &Message) -> bool
    ensures { result ≡ can_do state.now message.now }
{
    match *message {
        Message::Hello(..) | Message::Unlock(..) => true,
        Message::Lock(_, block) => can_lock(state, block),
        Message::Open(_, block) => {
            is_open(state, block) || state.queues().list_len() != MAX_QUEUES
        }
        Message::Log(_, block, _, _) => state.queues().pending_len(block) == 0,
        _ => false,
    }
}

// Whether the client owes this handler something that it can do.
fn gets_from<A: Allocator>(client: &Client<A>, standing: &Standing<A>) -> bool
    ensures { result ≡ gets_from client.now standing.now }
{
    let state = standing.state();
    match client.due(state.handler()) {
        Some(message) => can_do(state, &message),
        None => false,
    }
}

/// The first handler that the client can ask for something.
pub(crate) fn first_ask<A: Allocator>(
    id: ClientId,
    client: &Client<A>,
    states: &[Standing<A>],
) -> Option<Next>
    ensures { result ≡ first_ask id client.now states.now }
{
    for standing in states {
        if gets_from(client, standing) {
            return Some(Next::Ask(id, standing.state().handler()));
        }
    }
    None
}
