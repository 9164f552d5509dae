//! The number of places that a handler's marks have left: incarnations to come, newer blocks, and entries to receive.

ghost use Rattle.std.specs.Prelude.{◌≡◌, ◌<◌, ◌-◌, suc, length, filter, if◌then◌else◌, not, slice_get, Some};
ghost use Rattle.scoop_handler.specs.Marks.{block_of};
ghost use Rattle.scoop_message.specs.Entry.{is_end};
ghost use Rattle.scoop_message.specs.Message.{same_block};
ghost use Rattle.scoop_model.specs.World.{BlockLog};
ghost use Rattle.scoop_calm.specs.Bound.{is_later, share_left, block_left, mark_at, places_from, places_left};
ghost use Rattle.scoop_calm.specs.Capped.{capped};
ghost use Rattle.scoop_calm.specs.Left.{total};

use crate::asking::mark_of;
use scoop_handler::{HandlerState, Mark, Stage};
use scoop_message::{Block, ClientId, Entry, HandlerId};
use scoop_object::Behaviour;
use scoop_world::World;
use std::alloc::Allocator;

// Whether the block is newer than the mark of its client.
fn is_later(block: Block, mark: &Mark) -> bool
    ensures { result ≡ is_later block mark.now }
{
    block.client == mark.client
        && (mark.inc < block.inc || (mark.inc == block.inc && mark.num < block.num))
}

// Whether the mark is of this block.
fn is_at(block: Block, mark: &Mark) -> bool
    ensures { result ≡ same_block block (block_of mark.now) }
{
    let newest = Block {
        client: mark.client,
        inc: mark.inc,
        num: mark.num,
    };
    block == newest
}

// One for a call or a query.
fn one_unless_end(entry: &Entry) -> usize
    ensures { result ≡ (if is_end entry.now then 0 else 1) }
{
    if entry.is_end() { 0 } else { 1 }
}

// How many calls and queries there are.
fn requests(entries: &[Entry]) -> usize
    ensures { result ≡ length (filter (λ e. not (is_end e)) entries.now) }
{
    let mut count = 0;
    for entry in entries {
        count += one_unless_end(entry);
    }
    count
}

// How many entries are left if this many calls and queries are logged, an End is to come, and some were received.
fn entries_left(requests: u64, received: u64) -> u64
    ensures { result ≡ capped (suc requests - received) }
{
    if received == 0 {
        requests.saturating_add(1)
    } else {
        requests.saturating_sub(received - 1)
    }
}

// The places left for a block that has these entries for the handler.
fn share_left(mark: &Mark, block: Block, entries: &[Entry]) -> u64
    ensures { (h : HandlerId) → result ≡ capped (share_left mark.now block (record { handler = h; entries = entries.now })) }
{
    if is_later(block, mark) {
        (requests(entries) as u64).saturating_add(2)
    } else if is_at(block, mark) {
        entries_left(requests(entries) as u64, u64::from(mark.received))
    } else {
        0
    }
}

// The places that the block at this place of the logs has left at the handler.
fn block_left<B: Behaviour, A: Allocator + Copy>(
    world: &World<B, A>,
    place: usize,
    handler: HandlerId,
    mark: &Mark,
) -> u64
    requires { place < length world.now.logs }
    ensures { (l : BlockLog) → slice_get world.now.logs place ≡ Some l → result ≡ capped (block_left handler mark.now l) }
{
    let Some(block) = world.block(place) else {
        unreachable!()
    };
    // Most blocks are over: their entries aren't looked up.
    if !is_later(block, mark) && !is_at(block, mark) {
        return 0;
    }
    match world.logged_by(place, handler) {
        Some(entries) => share_left(mark, block, entries),
        None => 0,
    }
}

fn blocks_left<B: Behaviour, A: Allocator + Copy>(
    world: &World<B, A>,
    handler: HandlerId,
    mark: &Mark,
) -> u64
    ensures { result ≡ capped (total (block_left handler mark.now) world.now.logs) }
{
    let mut sum: u64 = 0;
    for place in 0..world.blocks() {
        sum = sum.saturating_add(block_left(world, place, handler, mark));
    }
    sum
}

// The client's mark, or one before its first incarnation.
fn mark_at<A: Allocator>(state: &HandlerState<A>, client: ClientId) -> Mark
    ensures { result ≡ mark_at client state.now.marks }
{
    match mark_of(state, client) {
        Some(mark) => mark,
        None => Mark {
            client,
            inc: 0,
            num: 0,
            stage: Stage::Shut,
            received: 0,
            ended: false,
            kept: None,
        },
    }
}

// The places that a client in this incarnation has left at the handler.
fn places_from<B: Behaviour, A: Allocator + Copy>(
    world: &World<B, A>,
    handler: HandlerId,
    inc: u32,
    mark: &Mark,
) -> u64
    ensures { result ≡ capped (places_from world.now.logs handler inc mark.now) }
{
    u64::from(inc.saturating_sub(mark.inc)).saturating_add(blocks_left(world, handler, mark))
}

/// The places that the handler's marks have left for all clients of the world.
pub(crate) fn places_left<B: Behaviour, A: Allocator + Copy>(
    world: &World<B, A>,
    state: &HandlerState<A>,
) -> u64
    ensures { result ≡ capped (total (places_left world.now.logs state.now) world.now.parties) }
{
    let mut sum: u64 = 0;
    for place in 0..world.clients() {
        let Some((id, client)) = world.client(place) else {
            unreachable!()
        };
        let mark = mark_at(state, id);
        sum = sum.saturating_add(places_from(world, state.handler(), client.inc(), &mark));
    }
    sum
}
