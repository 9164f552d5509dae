//! A link that holds repeated datagrams back until their time has come.

ghost use Rattle.std.specs.Prelude.{◌≡◌, ◌≤◌, [], take, None, Ok, IfOk, IfSome, OnErr, IsTrue, IsFalse};
ghost use Rattle.scoop_link.specs.Datagram.{kept};
ghost use Rattle.scoop_link.specs.Link.{CountsFault, Exchanges, sent_by, taken_by};
ghost use Rattle.scoop_pacing.specs.Pacing.{fresh_pacing, passes};
ghost use Rattle.scoop_pacing.specs.Measured.{sender_in, measures, after_send, after_receive};

use crate::pacing::Pacing;
use crate::times::Times;
use scoop_link::{Datagram, Link, LinkFault, Party};
use scoop_message::limits::BUFFER_LEN;
use scoop_message::{HandlerId, OutOfMemory};
use std::alloc::{Allocator, Global};
use std::marker::Model;

// Bytes of the shortest frame.
const MIN_FRAME: usize = 26;

// The place of the handler in a frame.
const HANDLER_AT: usize = 4;

/// A client's link that passes sends on to an inner link, and holds a repeated datagram back until its time has come.
///
/// A datagram that differs from the last one to its party goes at once. A repeat of the last one goes in two cases:
/// - no reply of the party came, and the timeout is over;
/// - a reply came: the repeat goes at once, and after eight repeats once a round trip.
///
/// Every other repeat is lost, and its send returns `Ok`.
///
/// A timeout is 200 ms at first. Later RFC 6298 gives it, from the round trips of datagrams that went once; it stays
/// within 5 ms to 2 s. It doubles with each repeat without a reply, until a round trip is measured. Up to an eighth is
/// added at random. A call that fails in the inner link doesn't count.
///
/// Contracts see the inner link, the clock, and the last datagrams with their times. It doesn't record its datagrams.
#[derive(Drop)]
pub struct MeasuredLink<L: Link, C: Times, A: Allocator = Global> {
    inner: L,
    clock: C,
    pacing: Pacing<A>,
}

impl<L: Link, C: Times, A: Allocator> Model for MeasuredLink<L, C, A> {
    ghost use Rattle.scoop_pacing.specs.Measured.{MeasuredValue, measures};

    ghost Value = { MeasuredValue L C };

    ghost view = { λ m. measures m.inner m.clock m.pacing };
}

// The handler that the bytes name where a frame has its handler.
fn sender_in(bytes: &[u8]) -> Option<Party>
    ensures { result ≡ sender_in bytes.now }
{
    if bytes.len() < MIN_FRAME {
        return None;
    }
    let number = u32::from_be_bytes([
        bytes[HANDLER_AT],
        bytes[HANDLER_AT + 1],
        bytes[HANDLER_AT + 2],
        bytes[HANDLER_AT + 3],
    ]);
    Some(Party::Handler(HandlerId(number)))
}

impl<L: Link, C: Times, A: Allocator> MeasuredLink<L, C, A> {
    /// Measures the round trips of this link by this clock, with memory for the last datagrams of `parties` parties; datagrams
    /// to others always go. The seed chooses the parts at random. `OutOfMemory` means that the memory was refused.
    pub fn new(
        alloc: A,
        inner: L,
        clock: C,
        parties: usize,
        seed: u32,
    ) -> Result<MeasuredLink<L, C, A>, OutOfMemory>
        ensures { IfOk result (λ m. m ≡ measures inner clock (fresh_pacing parties seed)) }
    {
        let pacing = Pacing::new(alloc, parties, seed)?;
        Ok(MeasuredLink {
            inner,
            clock,
            pacing,
        })
    }

    /// The inner link.
    pub fn inner(&self) -> &L
        ensures { result.now ≡ self.now.inner }
    {
        &self.inner
    }

    // Notes a reply.
    fn hear(&mut self, bytes: &[u8])
        ensures inner { self.new.inner ≡ self.old.inner }
        ensures heard { self.new.pacing ≡ after_receive self.old.pacing (C.time self.new.clock) (sender_in bytes.now) }
    {
        let now = self.clock.now();
        if let Some(from) = sender_in(bytes) {
            self.pacing.hear(now, from);
        }
    }
}

impl<L: Link, C: Times, A: Allocator> Link for MeasuredLink<L, C, A> {
    ghost told = { λ _. None };

    ghost fault_count = { λ m. L.fault_count m.inner };

    fn send(&mut self, to: Party, bytes: &[u8]) -> Result<(), LinkFault>
        ensures faults { CountsFault result (L.fault_count self.old.inner) (L.fault_count self.new.inner) }

        ensures held { IsFalse (passes self.old.pacing (C.time self.new.clock) to (kept bytes.now))
            → (result ≡ Ok tt) × (self.new.inner ≡ self.old.inner) × (self.new.pacing ≡ self.old.pacing) }
        ensures asked { IsTrue (passes self.old.pacing (C.time self.new.clock) to (kept bytes.now))
            → Exchanges (L.told self.old.inner) (L.told self.new.inner) [] (sent_by result to bytes.now) }
        ensures paced { IsTrue (passes self.old.pacing (C.time self.new.clock) to (kept bytes.now))
            → self.new.pacing ≡ after_send self.old.pacing (C.time self.new.clock) to (kept bytes.now) result }
    {
        let now = self.clock.now();
        let datagram = Datagram::of(bytes);
        if !self.pacing.passes(now, to, &datagram) {
            return Ok(());
        }
        self.inner.send(to, bytes)?;
        self.pacing.pass(now, to, datagram);
        Ok(())
    }

    fn receive(&mut self, buffer: &mut [u8; BUFFER_LEN]) -> Result<Option<usize>, LinkFault>
        ensures in_bounds { IfOk result (λ got. IfSome got (λ n. n ≤ BUFFER_LEN)) }
        ensures faults { CountsFault result (L.fault_count self.old.inner) (L.fault_count self.new.inner) }

        ensures asked { Exchanges (L.told self.old.inner) (L.told self.new.inner) (taken_by result buffer.new) [] }
        ensures heard { IfOk result (λ got. IfSome got (λ n.
            self.new.pacing ≡ after_receive self.old.pacing (C.time self.new.clock) (sender_in (take n buffer.new)))) }
        ensures nothing { result ≡ Ok None → self.new.pacing ≡ self.old.pacing }
        ensures failed { OnErr result (self.new.pacing ≡ self.old.pacing) }
    {
        match self.inner.receive(buffer)? {
            Some(len) => {
                self.hear(&buffer[..len]);
                Ok(Some(len))
            }
            None => Ok(None),
        }
    }

    fn faults(&self) -> u64 {
        self.inner.faults()
    }
}
