//! A lane of datagrams that drops and doubles by a script.

ghost use Rattle.std.specs.Prelude.{◌≡◌, [], IfOk};
ghost use Rattle.scoop_link.specs.Datagram.{TakesFirst};
ghost use Rattle.scoop_link.specs.Lane.{empty_lane, after_put};

use crate::datagram::{Datagram, take_first};
use crate::script::Script;
use scoop_message::OutOfMemory;
use scoop_message::limits::BUFFER_LEN;
use std::alloc::{Allocator, Global};
use std::collections::VecDeque;
use std::marker::Model;

/// Datagrams on their way, oldest first. Contracts see the lane's script, its room, its count of puts
/// and its datagrams.
#[derive(Drop)]
pub struct Lane<A: Allocator = Global> {
    script: Script,
    room: usize,
    puts: u64,
    datagrams: VecDeque<Datagram, A>,
}

impl<A: Allocator> Model for Lane<A> {
    ghost use Rattle.std.specs.Prelude.{◌≤◌};
    ghost use Rattle.std.specs.VecDeque.{deque_len, deque_capacity};
    ghost use Rattle.scoop_link.specs.Lane.{LaneValue};

    ghost Value = { LaneValue };

    ghost view = { λ l. record { script = l.script; room = l.room; puts = l.puts; datagrams = l.datagrams.items } };

    ghost invariant = { λ l. (deque_len l.datagrams ≤ l.room) × (l.room ≤ deque_capacity l.datagrams) };
}

impl<A: Allocator> Lane<A> {
    /// Makes an empty lane, with memory for `room` datagrams. `OutOfMemory` means that the memory was refused.
    pub fn new(alloc: A, script: Script, room: usize) -> Result<Lane<A>, OutOfMemory>
        ensures { IfOk result (λ l. l ≡ empty_lane script room) }
    {
        let datagrams = VecDeque::with_capacity(alloc, room)?;
        Ok(Lane {
            script,
            room,
            puts: 0,
            datagrams,
        })
    }

    /// Puts a datagram in last; the lane keeps its first `BUFFER_LEN` bytes. The k-th put, counted from 1, is
    /// dropped if `drop_every` divides k, and otherwise appended twice if `double_every` divides k. A copy that
    /// finds no room is lost. The count of puts stops at 2^64-1.
    pub fn put(&mut self, bytes: &[u8])
        ensures { self.new ≡ after_put self.old bytes.now }
    {
        self.puts = self.puts.saturating_add(1);
        for _ in 0..self.script.copies(self.puts) {
            if self.datagrams.len() < self.room {
                self.datagrams.push_back_reserved(Datagram::of(bytes));
            }
        }
    }

    /// Takes the first datagram out: its length, at most `BUFFER_LEN`, and its bytes at the start of the buffer.
    /// `None` means that the lane is empty.
    pub fn take(&mut self, buffer: &mut [u8; BUFFER_LEN]) -> Option<usize>
        ensures first { TakesFirst result self.old.datagrams self.new.datagrams buffer.old buffer.new }
        ensures others { self.new ≡ record self.old { datagrams = self.new.datagrams } }
    {
        take_first(&mut self.datagrams, buffer)
    }
}
