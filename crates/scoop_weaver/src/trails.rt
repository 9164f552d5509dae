//! The search for an order, over trails.

ghost use Rattle.std.specs.Prelude.{◌≡◌, ◌↔◌, ◌<◌, ◌≤◌, ℕ, List, length, map, slice_get, slice_index, Contains, IsTrue, IfOk, IfErr, IfSome, IfNone};
ghost use Rattle.std.specs.Prelude.{OnOk, ◌⊎◌, ◌+◌, []};
ghost use Rattle.scoop_message.specs.declared.message.Message.{Message as Told};
ghost use Rattle.scoop_weaver.specs.declared.traffic.Traffic.{Traffic as Move};
ghost use Rattle.scoop_weaver.specs.Trails.{AllNumbered, HasOrder, HaveTraffic, IsReadyBy, IsTrailRun, WasSent, parties_along, step_at, trail_len};
ghost use Rattle.scoop_weaver.specs.Weaving.{IsNoWeave, left};

use crate::error::NoWeave;
use crate::post::Post;
use crate::trail::{Passage, Trail};
use std::alloc::{AllocError, Allocator};

// Whether the message of this number was sent; number 0 is none.
fn was_sent(sent: &[bool], number: u32) -> bool
    ensures { IsTrue result ↔ WasSent sent.now number }
{
    if number == 0 {
        return true;
    }
    sent.get(number as usize - 1).copied().unwrap_or(false)
}

// Whether the party has a move at this place, and the message that it hears was sent.
fn is_ready<A: Allocator>(trail: &Trail<A>, place: usize, sent: &[bool]) -> bool
    ensures { IsTrue result ↔ IsReadyBy sent.now (slice_get trail.now place) }
{
    match trail.get(place) {
        Some(next) => was_sent(sent, next.heard),
        None => false,
    }
}

// A party whose next move can be taken: this one, if it is one, else the first.
fn next_ready<A: Allocator>(
    trails: &[Trail<A>],
    places: &[usize],
    sent: &[bool],
    likely: usize,
) -> Option<usize>
    requires { length places.now ≡ length trails.now }
    ensures some { IfSome result (λ p. (p < length trails.now) × IsReadyBy sent.now (step_at trails.now places.now p)) }
    ensures none { IfNone result ((p : ℕ) → p < length trails.now → IsReadyBy sent.now (step_at trails.now places.now p) → ⊥) }
{
    if likely < trails.len() && is_ready(&trails[likely], places[likely], sent) {
        return Some(likely);
    }
    for party in 0..trails.len() {
        if is_ready(&trails[party], places[party], sent) {
            return Some(party);
        }
    }
    None
}

// The first party that has moves left.
fn first_left<A: Allocator>(trails: &[Trail<A>], places: &[usize]) -> Option<usize>
    requires { length places.now ≡ length trails.now }
    ensures some { IfSome result (λ p. (p < length trails.now) × (slice_index places.now p < trail_len trails.now p)) }
    ensures none { IfNone result ((p : ℕ) → p < length trails.now → trail_len trails.now p ≤ slice_index places.now p) }
{
    for party in 0..trails.len() {
        if places[party] < trails[party].len() {
            return Some(party);
        }
    }
    None
}

// Notes that the message of this number is sent, if it is one.
fn note_sent<A: Allocator>(sent: &mut Vec<bool, A>, number: u32)
    ensures only { (n : ℕ) → WasSent sent.new.items n → (WasSent sent.old.items n) ⊎ (n ≡ number) }
    ensures keeps { (n : ℕ) → WasSent sent.old.items n → WasSent sent.new.items n }
    ensures noted { number ≤ length sent.old.items → WasSent sent.new.items number }
    ensures count { length sent.new.items ≡ length sent.old.items }
{
    if number == 0 {
        return;
    }
    let place = number as usize - 1;
    if place < sent.len() {
        sent[place] = true;
    }
}

// Takes the party's next move.
fn take<A: Allocator>(
    trails: &[Trail<A>],
    party: usize,
    places: &mut Vec<usize, A>,
    order: &mut Vec<u32, A>,
    sent: &mut Vec<bool, A>,
) -> Result<(), NoWeave>
    requires count { length places.old.items ≡ length trails.now }
    requires within { party < length trails.now }
    requires ready { IsReadyBy sent.old.items (step_at trails.now places.old.items party) }
    ensures run { (post : List Told) → AllNumbered post trails.now → IsTrailRun post trails.now places.old.items order.old.items sent.old.items
        → OnOk result (IsTrailRun post trails.now places.new.items order.new.items sent.new.items) }
    ensures left { OnOk result (left (parties_along [] trails.now) places.new.items < left (parties_along [] trails.now) places.old.items) }
    ensures count { length places.new.items ≡ length places.old.items }
    ensures memory { IfErr result (λ e. e ≡ NoWeave.OutOfMemory) }
{
    let place = places[party];
    let Some(next) = trails[party].get(place) else {
        unreachable!()
    };
    if party >= u32::MAX as usize {
        return Err(NoWeave::OutOfMemory);
    }
    let Ok(()) = order.push(party as u32) else {
        return Err(NoWeave::OutOfMemory);
    };
    note_sent(sent, next.sent);
    places[party] = place + 1;
    Ok(())
}

// A place for each party, before its first move.
fn first_places<A: Allocator + Copy>(
    alloc: A,
    trails: &[Trail<A>],
) -> Result<Vec<usize, A>, AllocError>
    ensures { IfOk result (λ places. places.items ≡ map (λ t. 0) trails.now) }
{
    trails.iter().map(|_| 0).collect(alloc)
}

// A flag for each message: none was sent yet.
fn none_sent<A: Allocator + Copy>(alloc: A, count: usize) -> Result<Vec<bool, A>, AllocError>
    ensures none { IfOk result (λ flags. (n : ℕ) → WasSent flags.items (n + 1) → ⊥) }
    ensures count { IfOk result (λ flags. length flags.items ≡ count) }
{
    (0..count).map(|_| false).collect(alloc)
}

// Notes all messages that the party sends.
fn note_all<A: Allocator>(trail: &Trail<A>, sent: &mut Vec<bool, A>) {
    for place in 0..trail.len() {
        if let Some(next) = trail.get(place) {
            note_sent(sent, next.sent);
        }
    }
}

// Whether the party's move at this place hears what isn't sent.
fn is_stuck<A: Allocator>(trail: &Trail<A>, place: usize, sent: &[bool]) -> bool {
    match trail.get(place) {
        Some(next) => !was_sent(sent, next.heard),
        None => false,
    }
}

// The first party that has moves left of which the next one hears what no party sends at all, or else this one. The others
// that are left may only wait for such a party.
fn first_cause<A: Allocator>(
    trails: &[Trail<A>],
    places: &[usize],
    sent: &mut Vec<bool, A>,
    left: usize,
) -> usize
    requires count { length places.now ≡ length trails.now }
    requires left { (left < length trails.now) × (slice_index places.now left < trail_len trails.now left) }
    ensures { (result < length trails.now) × (slice_index places.now result < trail_len trails.now result) }
{
    for trail in trails {
        note_all(trail, sent);
    }
    for party in 0..trails.len() {
        if places[party] < trails[party].len() && is_stuck(&trails[party], places[party], sent) {
            return party;
        }
    }
    left
}

// No move can be taken: all were, or there is no order.
fn ending<A: Allocator>(
    trails: &[Trail<A>],
    places: &[usize],
    order: Vec<u32, A>,
    sent: &mut Vec<bool, A>,
) -> Result<Vec<u32, A>, NoWeave>
    requires count { length places.now ≡ length trails.now }
    requires stuck { (p : ℕ) → p < length trails.now → IsReadyBy sent.old.items (step_at trails.now places.now p) → ⊥ }
    ensures woven { (post : List Told) → AllNumbered post trails.now → IsTrailRun post trails.now places.now order.items sent.old.items
        → IfOk result (λ turns. HasOrder (parties_along post trails.now) turns.items) }
    ensures unexplained { (post : List Told) → AllNumbered post trails.now → IsTrailRun post trails.now places.now order.items sent.old.items
        → IfErr result (IsNoWeave (parties_along post trails.now)) }
{
    match first_left(trails, places) {
        None => Ok(order),
        Some(left) => {
            let party = first_cause(trails, places, sent, left);
            Err(NoWeave::Unsent(party, places[party]))
        }
    }
}

/// One order of all parties' moves, as the places of the parties whose turn it is, in which each message that is heard
/// was sent before. The post has the trails' messages. It does what [`weave`](crate::weave) does, with four bytes for each
/// move of the order.
///
/// `Unsent` as `weave` says it. If it can, it names a move that hears what no party sends at all.
pub fn weave_trails<A: Allocator + Copy>(
    alloc: A,
    post: &Post<A>,
    trails: &[Trail<A>],
) -> Result<Vec<u32, A>, NoWeave>
    ensures woven { (parties : List (List Move)) → HaveTraffic post.now trails.now parties → IfOk result (λ turns. HasOrder parties turns.items) }
    ensures unexplained { (parties : List (List Move)) → HaveTraffic post.now trails.now parties → IfErr result (IsNoWeave parties) }
{
    let mut order = Vec::new(alloc);
    let Ok(mut sent) = none_sent(alloc, post.len()) else {
        return Err(NoWeave::OutOfMemory);
    };
    let Ok(mut places) = first_places(alloc, trails) else {
        return Err(NoWeave::OutOfMemory);
    };
    let mut likely = 0;
    while let Some(party) = next_ready(trails, &places, &sent, likely) {
        match take(trails, party, &mut places, &mut order, &mut sent) {
            Ok(()) => {}
            Err(error) => return Err(error),
        }
        likely = party;
    }
    ending(trails, &places, order, &mut sent)
}
