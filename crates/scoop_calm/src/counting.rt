//! The number of rounds that a running world has left at most.

ghost use Rattle.std.specs.Prelude.{◌≡◌, List, map, IfOk};
ghost use Rattle.scoop_handler.specs.declared.mark.Mark.{Mark as MarkItself};
ghost use Rattle.scoop_queue.specs.Queue.{PrivateQueue};
ghost use Rattle.scoop_world.specs.Standing.{standing};
ghost use Rattle.scoop_calm.specs.Bound.{hold_left, holder_left, jobs_left, left, lock_left};
ghost use Rattle.scoop_calm.specs.Capped.{capped, if_below, standing_left};
ghost use Rattle.scoop_calm.specs.Left.{queue_work, total};

use crate::mark_places::places_left;
use crate::work::clients_left;
use scoop_handler::{HandlerState, Stage};
use scoop_message::{Block, OutOfMemory};
use scoop_object::Behaviour;
use scoop_queue::QueueOfQueues;
use scoop_world::{Standing, World};
use std::alloc::Allocator;

// One for a lock that is held.
fn holder_left(holder: Option<Block>) -> u64
    ensures { result ≡ holder_left holder }
{
    match holder {
        Some(_) => 1,
        None => 0,
    }
}

// One if the mark's block has the lock and hasn't opened.
fn hold_left(stage: Stage) -> u64
    ensures { (k : MarkItself) → k.stage ≡ stage → result ≡ hold_left k }
{
    match stage {
        Stage::Held => 1,
        Stage::Open | Stage::Shut => 0,
    }
}

// One for each mark whose block has the lock and hasn't opened.
fn holds_left<A: Allocator>(state: &HandlerState<A>) -> u64
    ensures { result ≡ capped (total hold_left state.now.marks) }
{
    let mut sum: u64 = 0;
    for place in 0..state.marks() {
        let Some(mark) = state.mark(place) else {
            unreachable!()
        };
        sum = sum.saturating_add(hold_left(mark.stage));
    }
    sum
}

// The entries that are pending in all private queues.
fn pending<A: Allocator>(queues: &QueueOfQueues<A>) -> u64
    ensures { result ≡ capped (total queue_work queues.now) }
{
    let mut sum: u64 = 0;
    for place in 0..queues.list_len() {
        let Some(head) = queues.head(place) else {
            unreachable!()
        };
        sum = sum.saturating_add(queues.pending_len(head.block) as u64);
    }
    sum
}

// Two for each pending entry, less one if a job is out.
fn jobs_left(pending: u64, is_out: bool) -> u64
    ensures { (qs : List PrivateQueue) → pending ≡ capped (total queue_work qs) → result ≡ capped (jobs_left qs is_out) }
{
    let to_begin = if is_out {
        pending.saturating_sub(1)
    } else {
        pending
    };
    pending.saturating_add(to_begin)
}

// One for the lock, and one for each block that has it and is to open.
fn lock_left<A: Allocator>(state: &HandlerState<A>) -> u64
    ensures { result ≡ capped (lock_left state.now) }
{
    holder_left(state.holder()).saturating_add(holds_left(state))
}

// The number left at a handler that stands so.
fn standing_left<B: Behaviour, A: Allocator + Copy>(
    world: &World<B, A>,
    standing: &Standing<A>,
) -> u64
    ensures { result ≡ capped (standing_left world.now standing.now) }
{
    let state = standing.state();
    let jobs = jobs_left(pending(state.queues()), standing.is_out());
    places_left(world, state)
        .saturating_mul(3)
        .saturating_add(lock_left(state))
        .saturating_add(jobs)
}

fn all_left<B: Behaviour, A: Allocator + Copy>(world: &World<B, A>, states: &[Standing<A>]) -> u64
    ensures { result ≡ capped (total (standing_left world.now) states.now) }
{
    let mut sum: u64 = 0;
    for standing in states {
        sum = sum.saturating_add(standing_left(world, standing));
    }
    sum
}

fn all_in<B: Behaviour, A: Allocator + Copy>(world: &World<B, A>, states: &[Standing<A>]) -> u64
    requires { states.now ≡ map standing world.now.sites }
    ensures { result ≡ capped (left world.now) }
{
    clients_left(world).saturating_add(all_left(world, states))
}

/// Returns how many rounds are left at most until the world is calm, by [`rounds_calm`](crate::rounds_calm). The same
/// number bounds how often the next events are taken, by
/// [`settles_by_next_events`](crate::settles_by_next_events). `None` exactly if it is 2^64 - 1 or more.
///
/// Looks at each block that was ever reserved, for each pair of a client and a handler. `OutOfMemory` is the one refusal.
pub fn left_of<B: Behaviour, A: Allocator + Copy>(
    world: &World<B, A>,
) -> Result<Option<u64>, OutOfMemory>
    ensures { IfOk result (λ n. n ≡ if_below (left world.now)) }
{
    let states = world.states()?;
    let left = all_in(world, &states);
    if left < u64::MAX {
        Ok(Some(left))
    } else {
        Ok(None)
    }
}
