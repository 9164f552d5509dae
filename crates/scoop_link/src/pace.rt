//! The retransmission limit of a rate-limited link.

ghost use Rattle.std.specs.Prelude.{◌≡◌, ◌≤◌, map, position, bytes_eq, IfOk, vec_len, vec_capacity};
ghost use Rattle.std.specs.Option.{option_copied};
ghost use Rattle.scoop_link.specs.Party.{same_party};
ghost use Rattle.scoop_link.specs.Pace.{fresh_pace, last_to, passes, next_last, put_last, after_passing, silenced, after_silence, after_datagram};

use crate::datagram::Datagram;
use crate::party::Party;
use scoop_message::OutOfMemory;
use std::alloc::Allocator;
use std::marker::Model;

// The last of this number of datagrams in a row counts as a receive timeout.
const MAX_IN_A_ROW: u64 = 64;

/// The last datagram passed on to a party.
#[derive(Drop)]
pub struct Last {
    /// The party.
    pub party: Party,
    /// The datagram.
    pub datagram: Datagram,
    /// The number of repetitions in a row. It stops at 2^64-1.
    pub repeated: u64,
    /// Whether a receive timeout came since.
    pub silent: bool,
}

impl Last {
    // Whether it is this datagram.
    fn is_of(&self, datagram: &Datagram) -> bool
        ensures { result ≡ bytes_eq self.now.datagram datagram.now }
    {
        self.datagram.as_slice() == datagram.as_slice()
    }
}

/// The last datagrams of parties, and the counts by which a rate-limited link decides.
#[derive(Drop)]
pub(crate) struct Pace<A: Allocator> {
    lasts: Vec<Last, A>,
    room: usize,
    repeats: u64,
    passed: u64,
    received: u64,
}

impl<A: Allocator> Model for Pace<A> {
    ghost use Rattle.std.specs.Prelude.{◌≤◌, vec_len, vec_capacity};
    ghost use Rattle.scoop_link.specs.Pace.{PaceValue};

    ghost Value = { PaceValue };

    ghost view = { λ p. record { lasts = p.lasts.items; room = p.room; repeats = p.repeats; passed = p.passed; received = p.received } };

    ghost invariant = { λ p. (vec_len p.lasts ≤ p.room) × (p.room ≤ vec_capacity p.lasts) };
}

// The last datagram passed on to a party.
fn last_of(lasts: &[Last], to: Party) -> Option<&Last>
    ensures { option_copied result ≡ last_to lasts.now to }
{
    lasts.iter().find(|last| last.party == to)
}

// The place of a party's last datagram.
fn place_of(lasts: &[Last], to: Party) -> Option<usize>
    ensures { result ≡ position (λ l. same_party l.party to) lasts.now }
{
    lasts.iter().position(|last| last.party == to)
}

// The party's last datagram, once this one is passed on.
fn next(lasts: &[Last], to: Party, datagram: Datagram) -> Last
    ensures { result ≡ next_last lasts.now to datagram }
{
    let repeated = match last_of(lasts, to) {
        Some(last) if last.is_of(&datagram) => last.repeated.saturating_add(1),
        _ => 0,
    };
    Last {
        party: to,
        datagram,
        repeated,
        silent: false,
    }
}

// Puts a last datagram in place of its party's, or after the others if there is room.
fn put<A: Allocator>(lasts: &mut Vec<Last, A>, room: usize, last: Last)
    requires { room ≤ vec_capacity lasts.old }
    ensures items { lasts.new.items ≡ put_last room lasts.old.items last }
    ensures len { vec_len lasts.old ≤ room → vec_len lasts.new ≤ room }
    ensures capacity { vec_capacity lasts.new ≡ vec_capacity lasts.old }
{
    match place_of(lasts, last.party) {
        Some(i) => lasts[i] = last,
        None if lasts.len() < room => lasts.push_reserved(last),
        None => {}
    }
}

// Marks a receive timeout after each.
fn silence_all(lasts: &mut [Last])
    ensures { lasts.new ≡ map silenced lasts.old }
{
    for last in lasts.iter_mut() {
        last.silent = true;
    }
}

impl<A: Allocator> Pace<A> {
    /// Makes a limit before the first send, with memory for the last datagrams of `room` parties.
    pub(crate) fn new(alloc: A, room: usize, repeats: u64) -> Result<Pace<A>, OutOfMemory>
        ensures { IfOk result (λ p. p ≡ fresh_pace room repeats) }
    {
        let lasts = Vec::with_capacity(alloc, room)?;
        Ok(Pace {
            lasts,
            room,
            repeats,
            passed: 0,
            received: 0,
        })
    }

    /// Whether a datagram is passed on.
    pub(crate) fn passes(&self, to: Party, datagram: &Datagram) -> bool
        ensures { result ≡ passes self.now to datagram.now }
    {
        match last_of(&self.lasts, to) {
            Some(last) if last.is_of(datagram) => {
                last.silent || (self.passed <= self.received && last.repeated < self.repeats)
            }
            _ => true,
        }
    }

    /// Counts a datagram that was passed on, and keeps it.
    pub(crate) fn pass(&mut self, to: Party, datagram: Datagram)
        ensures { self.new ≡ after_passing self.old to datagram }
    {
        let last = next(&self.lasts, to, datagram);
        put(&mut self.lasts, self.room, last);
        self.passed = self.passed.saturating_add(1);
    }

    /// Counts a receive timeout.
    pub(crate) fn silence(&mut self)
        ensures { self.new ≡ after_silence self.old }
    {
        silence_all(&mut self.lasts);
        self.passed = 0;
        self.received = 0;
    }

    /// Counts a datagram that was received.
    pub(crate) fn receive(&mut self)
        ensures { self.new ≡ after_datagram self.old }
    {
        if self.received < MAX_IN_A_ROW - 1 {
            self.received += 1;
        } else {
            self.silence();
        }
    }
}
