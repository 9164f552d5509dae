//! The number of steps that clients have left.

ghost use Rattle.std.specs.Prelude.{◌≡◌};
ghost use Rattle.scoop_calm.specs.Capped.{capped};
ghost use Rattle.scoop_calm.specs.Left.{block_work, client_work, clients_left, stage_work, wait_work, window_work, windows_work};

use scoop_client::{Client, Window};
use scoop_message::HandlerId;
use scoop_object::Behaviour;
use scoop_reserve::{Reservation, Stage};
use scoop_world::World;
use std::alloc::Allocator;

// Its entries that aren't acknowledged, and an End to come, which is two steps.
fn window_work<A: Allocator>(window: &Window<A>) -> u64
    ensures { result ≡ capped (window_work window.now) }
{
    let end: u64 = if window.is_ended() { 0 } else { 2 };
    (window.unacked().len() as u64).saturating_add(end)
}

fn windows_work<A: Allocator>(windows: &[Window<A>]) -> u64
    ensures { result ≡ capped (windows_work windows.now) }
{
    let mut sum: u64 = 0;
    for window in windows {
        sum = sum.saturating_add(window_work(window));
    }
    sum
}

// The handlers that are left in this stage, and all of them in each later one.
fn stage_work(reservation: &Reservation) -> u64
    ensures { result ≡ capped (stage_work reservation.now reservation.now.stage) }
{
    let left = reservation.left().len() as u64;
    let all = reservation.handlers().len() as u64;
    match reservation.stage() {
        Stage::Locking => left.saturating_add(all).saturating_add(all),
        Stage::Opening => left.saturating_add(all),
        Stage::Unlocking | Stage::GivingUp => left,
    }
}

fn block_work<A: Allocator>(windows: &[Window<A>], reservation: Option<Reservation>) -> u64
    ensures { result ≡ capped (block_work windows.now reservation) }
{
    match reservation {
        Some(reservation) => stage_work(&reservation).saturating_add(windows_work(windows)),
        None => 0,
    }
}

fn wait_work(waits: Option<(HandlerId, u32)>) -> u64
    ensures { result ≡ wait_work waits }
{
    match waits {
        Some(_) => 1,
        None => 0,
    }
}

fn client_work<A: Allocator>(client: &Client<A>) -> u64
    ensures { result ≡ capped (client_work client.now) }
{
    let greets = client.unwelcomed().len() as u64;
    let block = block_work(client.windows(), client.reservation());
    greets
        .saturating_add(block)
        .saturating_add(wait_work(client.waits()))
}

/// The steps that all clients of the world have left.
pub(crate) fn clients_left<B: Behaviour, A: Allocator + Copy>(world: &World<B, A>) -> u64
    ensures { result ≡ capped (clients_left world.now) }
{
    let mut sum: u64 = 0;
    for place in 0..world.clients() {
        let Some((_, client)) = world.client(place) else {
            unreachable!()
        };
        sum = sum.saturating_add(client_work(client));
    }
    sum
}
