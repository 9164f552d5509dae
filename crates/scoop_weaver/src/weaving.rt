//! The search for an order.

ghost use Rattle.std.specs.Prelude.{◌≡◌, ◌≢◌, ◌↔◌, ◌<◌, ◌≤◌, ◌⊎◌, ℕ, List, Some, length, slice_get, slice_index, Contains, IsTrue, IfOk, IfErr, IfSome, IfNone};
ghost use Rattle.std.specs.Prelude.{OnOk, map};
ghost use Rattle.scoop_message.specs.declared.message.Message.{Message as Told};
ghost use Rattle.scoop_weaver.specs.declared.traffic.Traffic.{Traffic as Move};
ghost use Rattle.scoop_weaver.specs.Weaving.{IsNoWeave, IsReady, IsRun, IsWoven, left, next_at, party_len};

use crate::error::NoWeave;
use crate::sent::Sent;
use crate::traffic::{Party, Traffic};
use std::alloc::{AllocError, Allocator};

// Whether the party has a move at this place, and the message that it hears was sent.
fn is_ready<A: Allocator>(party: &Party<A>, place: usize, sent: &Sent<A>) -> bool
    ensures { IsTrue result ↔ IsReady sent.now (slice_get party.now place) }
{
    let Some(next) = party.get(place) else {
        return false;
    };
    match next.heard {
        None => true,
        Some(message) => sent.has(&message),
    }
}

// A party whose next move can be taken: this one, if it is one, else the first.
fn next_ready<A: Allocator>(
    parties: &[Party<A>],
    places: &[usize],
    sent: &Sent<A>,
    likely: usize,
) -> Option<usize>
    requires { length places.now ≡ length parties.now }
    ensures some { IfSome result (λ p. (p < length parties.now) × IsReady sent.now (next_at parties.now places.now p)) }
    ensures none { IfNone result ((p : ℕ) → p < length parties.now → IsReady sent.now (next_at parties.now places.now p) → ⊥) }
{
    if likely < parties.len() && is_ready(&parties[likely], places[likely], sent) {
        return Some(likely);
    }
    for party in 0..parties.len() {
        if is_ready(&parties[party], places[party], sent) {
            return Some(party);
        }
    }
    None
}

// The first party that has moves left.
fn first_left<A: Allocator>(parties: &[Party<A>], places: &[usize]) -> Option<usize>
    requires { length places.now ≡ length parties.now }
    ensures some { IfSome result (λ p. (p < length parties.now) × (slice_index places.now p < party_len parties.now p)) }
    ensures none { IfNone result ((p : ℕ) → p < length parties.now → party_len parties.now p ≤ slice_index places.now p) }
{
    for party in 0..parties.len() {
        if places[party] < parties[party].len() {
            return Some(party);
        }
    }
    None
}

// Adds the message that the move sends.
fn note_sent<A: Allocator>(sent: &mut Sent<A>, next: &Traffic) -> Result<(), NoWeave>
    ensures sent { OnOk result ((m : Told) → Contains sent.new m ↔ (Contains sent.old m ⊎ (next.now.sent ≡ Some m))) }
    ensures memory { IfErr result (λ e. e ≡ NoWeave.OutOfMemory) }
{
    let Some(message) = next.sent else {
        return Ok(());
    };
    match sent.add(&message) {
        Ok(()) => Ok(()),
        Err(_) => Err(NoWeave::OutOfMemory),
    }
}

// Takes the party's next move.
fn take<A: Allocator>(
    parties: &[Party<A>],
    party: usize,
    places: &mut [usize],
    order: &mut Vec<(usize, Traffic), A>,
    sent: &mut Sent<A>,
) -> Result<(), NoWeave>
    requires run { IsRun parties.now places.old order.old.items sent.old }
    requires within { party < length parties.now }
    requires ready { IsReady sent.old (next_at parties.now places.old party) }
    ensures run { OnOk result (IsRun parties.now places.new order.new.items sent.new) }
    ensures left { OnOk result (left parties.now places.new < left parties.now places.old) }
    ensures memory { IfErr result (λ e. e ≡ NoWeave.OutOfMemory) }
{
    let place = places[party];
    let Some(next) = parties[party].get(place) else {
        unreachable!()
    };
    match note_sent(sent, &next) {
        Ok(()) => {}
        Err(error) => return Err(error),
    }
    let Ok(()) = order.push((party, next)) else {
        return Err(NoWeave::OutOfMemory);
    };
    places[party] = place + 1;
    Ok(())
}

// A place for each party, before its first move.
fn first_places<A: Allocator + Copy>(
    alloc: A,
    parties: &[Party<A>],
) -> Result<Vec<usize, A>, AllocError>
    ensures { IfOk result (λ places. places.items ≡ map (λ p. 0) parties.now) }
{
    parties.iter().map(|_| 0).collect(alloc)
}

// No move can be taken: all were, or there is no order.
fn ending<A: Allocator>(
    parties: &[Party<A>],
    places: &[usize],
    order: Vec<(usize, Traffic), A>,
    sent: &Sent<A>,
) -> Result<Vec<(usize, Traffic), A>, NoWeave>
    requires run { IsRun parties.now places.now order.items sent.now }
    requires stuck { (p : ℕ) → p < length parties.now → IsReady sent.now (next_at parties.now places.now p) → ⊥ }
    ensures woven { IfOk result (λ order. IsWoven parties.now order.items) }
    ensures unexplained { IfErr result (IsNoWeave parties.now) }
    ensures none { IfErr result (λ e. e ≢ NoWeave.OutOfMemory → (order : List (ℕ × Move)) → IsWoven parties.now order → ⊥) }
{
    match first_left(parties, places) {
        None => Ok(order),
        Some(party) => Err(NoWeave::Unsent(party, places[party])),
    }
}

/// One order of all parties' moves, each move with its party, in which each message that is heard was sent before.
/// A message that was sent stays sent, so a move that can be taken now can be taken later too. So the search takes any
/// party's next move whose message was sent, again and again.
///
/// `Unsent` if there is no order. It names a move that hears a message which no order of the others' moves sends before.
/// All earlier moves of its party can be explained.
pub fn weave<A: Allocator + Copy>(
    alloc: A,
    parties: &[Party<A>],
) -> Result<Vec<(usize, Traffic), A>, NoWeave>
    ensures woven { IfOk result (λ order. IsWoven parties.now order.items) }
    ensures unexplained { IfErr result (IsNoWeave parties.now) }
    ensures none { IfErr result (λ e. e ≢ NoWeave.OutOfMemory → (order : List (ℕ × Move)) → IsWoven parties.now order → ⊥) }
{
    let mut order = Vec::new(alloc);
    let mut sent = Sent::new(alloc);
    let Ok(mut places) = first_places(alloc, parties) else {
        return Err(NoWeave::OutOfMemory);
    };
    let mut likely = 0;
    while let Some(party) = next_ready(parties, &places, &sent, likely) {
        match take(parties, party, &mut places, &mut order, &mut sent) {
            Ok(()) => {}
            Err(error) => return Err(error),
        }
        likely = party;
    }
    ending(parties, &places, order, &sent)
}
