//! A link that records its datagrams.

ghost use Rattle.std.specs.Prelude.{◌≡◌, ◌≤◌, ◌<◌, ◌-◌, ◌^◌, ◌↔◌, [], ◌∷◌, ◌++◌, length, Some, None, IfOk, OnOk, OnErr, IsErr, IsOkAnd, IfSome, MatchOption};
ghost use Rattle.std.specs.Prelude.{slice_get};
ghost use Rattle.scoop_link.specs.Datagram.{kept, TakesFirst};
ghost use Rattle.scoop_link.specs.Link.{CountsFault, Exchanges, sent_by, taken_by};
ghost use Rattle.scoop_link.specs.Tape.{empty_tape, told, after_send};

use crate::datagram::{Datagram, take_first};
use crate::link::{Link, LinkFault};
use crate::party::Party;
use scoop_message::OutOfMemory;
use scoop_message::limits::BUFFER_LEN;
use std::alloc::{Allocator, Global};
use std::collections::VecDeque;
use std::marker::Model;

/// A link for tests, which plays the datagrams that a test fed it and records those sent.
///
/// A send past its room is a fault, and a receive never fails. It records its datagrams for contracts while its
/// count of faults is below 2^64-1.
#[derive(Drop)]
pub struct TapeLink<A: Allocator = Global> {
    to_come: VecDeque<Datagram, A>,
    sent: Vec<(Party, Datagram), A>,
    room: usize,
    faults: u64,
}

impl<A: Allocator> Model for TapeLink<A> {
    ghost use Rattle.std.specs.Prelude.{◌≤◌, vec_len, vec_capacity};
    ghost use Rattle.scoop_link.specs.Tape.{TapeValue};

    ghost Value = { TapeValue };

    ghost view = { λ t. record { to_come = t.to_come.items; sent = t.sent.items; room = t.room; faults = t.faults } };

    ghost invariant = { λ t. (vec_len t.sent ≤ t.room) × (t.room ≤ vec_capacity t.sent) };
}

impl<A: Allocator + Clone> TapeLink<A> {
    /// Makes a link with nothing to come, and memory for `room` sent datagrams. `OutOfMemory` means that the
    /// memory was refused.
    pub fn new(alloc: A, room: usize) -> Result<TapeLink<A>, OutOfMemory>
        ensures { IfOk result (λ t. t ≡ empty_tape room) }
    {
        let to_come = VecDeque::new(alloc.clone()?);
        let sent = Vec::with_capacity(alloc, room)?;
        Ok(TapeLink {
            to_come,
            sent,
            room,
            faults: 0,
        })
    }
}

impl<A: Allocator> TapeLink<A> {
    /// Appends a datagram to those to come; the link keeps its first `BUFFER_LEN` bytes. `OutOfMemory` means that
    /// there was no memory for it, and nothing has changed.
    pub fn feed(&mut self, bytes: &[u8]) -> Result<(), OutOfMemory>
        ensures ok { OnOk result (self.new ≡ record self.old { to_come = self.old.to_come ++ kept bytes.now ∷ [] }) }
        ensures err { OnErr result (self.new ≡ self.old) }
    {
        self.to_come.push_back(Datagram::of(bytes))?;
        Ok(())
    }

    /// The i-th sent datagram, counted from 0, with its receiver.
    pub fn sent(&self, i: usize) -> Option<(Party, &[u8])>
        ensures { MatchOption result (slice_get self.now.sent i ≡ None) (λ d. slice_get self.now.sent i ≡ Some (d.0, d.1.now)) }
    {
        let (to, datagram) = self.sent.get(i)?;
        Some((*to, datagram.as_slice()))
    }

    /// The number of datagrams to come.
    pub fn to_come(&self) -> usize
        ensures { result ≡ length self.now.to_come }
    {
        self.to_come.len()
    }
}

impl<A: Allocator> Link for TapeLink<A> {
    ghost told = { told };

    ghost fault_count = { λ t. t.faults };

    fn send(&mut self, to: Party, bytes: &[u8]) -> Result<(), LinkFault>
        ensures faults { CountsFault result self.old.faults self.new.faults }
        ensures told { Exchanges (told self.old) (told self.new) [] (sent_by result to bytes.now) }

        ensures fails { IsErr result ↔ ((self.old.room ≤ length self.old.sent) × (self.old.faults < 2 ^ 64 - 1)) }
        ensures after { self.new ≡ after_send self.old to bytes.now }
    {
        if self.sent.len() < self.room {
            self.sent.push_reserved((to, Datagram::of(bytes)));
            return Ok(());
        }
        if self.faults == u64::MAX {
            return Ok(());
        }
        self.faults += 1;
        Err(LinkFault)
    }

    fn receive(&mut self, buffer: &mut [u8; BUFFER_LEN]) -> Result<Option<usize>, LinkFault>
        ensures in_bounds { IfOk result (λ got. IfSome got (λ n. n ≤ BUFFER_LEN)) }
        ensures faults { CountsFault result self.old.faults self.new.faults }
        ensures told { Exchanges (told self.old) (told self.new) (taken_by result buffer.new) [] }

        ensures first { IsOkAnd result (λ got. TakesFirst got self.old.to_come self.new.to_come buffer.old buffer.new) }
        ensures others { self.new ≡ record self.old { to_come = self.new.to_come } }
    {
        Ok(take_first(&mut self.to_come, buffer))
    }

    fn faults(&self) -> u64 {
        self.faults
    }
}
