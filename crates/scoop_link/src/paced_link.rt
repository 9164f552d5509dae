//! A link that holds repeated datagrams back.

ghost use Rattle.std.specs.Prelude.{◌≡◌, ◌≤◌, ℕ, List, [], None, IfOk, IfSome, IsTrue, IsFalse};
ghost use Rattle.scoop_link.specs.declared.party.Party.{Party};
ghost use Rattle.scoop_link.specs.Datagram.{kept};
ghost use Rattle.scoop_link.specs.Link.{CountsFault, Exchanges, sent_by, taken_by};
ghost use Rattle.scoop_link.specs.Pace.{fresh_pace, passes, after_send, after_receive};
ghost use Rattle.scoop_link.specs.Paced.{paced};

use crate::datagram::Datagram;
use crate::link::{Link, LinkFault};
use crate::pace::Pace;
use crate::party::Party;
use scoop_message::OutOfMemory;
use scoop_message::limits::BUFFER_LEN;
use std::alloc::{Allocator, Global};
use std::marker::Model;

/// The `repeats` of the programs' clients: a client sends a datagram again at once at most this often. Then it waits for
/// an empty poll.
pub const REPEATS: u64 = 8;

/// A link that passes sends on to an inner link, and holds a repeated datagram back while an earlier one may be on
/// its way.
///
/// It counts the datagrams passed on and received since the last receive timeout, that is, a receive without a
/// datagram. The last of `MAX_IN_A_ROW` datagrams in a row counts as a timeout too. A datagram that isn't the last
/// one passed on to its party is passed on, and begins a new row of repetitions. The last one is passed on again
/// if a timeout came since, or if at least as many were received as passed on and it was repeated fewer than
/// `repeats` times in a row. Otherwise it is lost, and the send returns `Ok`. A call that fails in the inner link
/// counts as nothing.
///
/// Contracts see the inner link, and the retransmission limit. It doesn't record its datagrams.
#[derive(Drop)]
pub struct PacedLink<L, A: Allocator = Global> {
    inner: L,
    pace: Pace<A>,
}

impl<L, A: Allocator> Model for PacedLink<L, A> {
    ghost use Rattle.scoop_link.specs.Paced.{PacedValue, paced};

    ghost Value = { PacedValue L };

    ghost view = { λ p. paced p.inner p.pace };
}

impl<L: Link, A: Allocator> PacedLink<L, A> {
    /// Limits the link's retransmissions, with memory for the last datagrams of `parties` parties; datagrams to
    /// others are always passed on. A datagram is repeated at most `repeats` times in a row without a timeout.
    /// `OutOfMemory` means that the memory was refused.
    pub fn new(
        alloc: A,
        inner: L,
        parties: usize,
        repeats: u64,
    ) -> Result<PacedLink<L, A>, OutOfMemory>
        ensures { IfOk result (λ p. p ≡ paced inner (fresh_pace parties repeats)) }
    {
        let pace = Pace::new(alloc, parties, repeats)?;
        Ok(PacedLink { inner, pace })
    }

    /// The inner link.
    pub fn inner(&self) -> &L
        ensures { result.now ≡ self.now.inner }
    {
        &self.inner
    }
}

impl<L: Link, A: Allocator> Link for PacedLink<L, A> {
    ghost told = { λ _. None };

    ghost fault_count = { λ p. L.fault_count p.inner };

    fn send(&mut self, to: Party, bytes: &[u8]) -> Result<(), LinkFault>
        ensures faults { CountsFault result (L.fault_count self.old.inner) (L.fault_count self.new.inner) }

        ensures held { IsFalse (passes self.old.pace to (kept bytes.now)) → (result ≡ Ok tt) × (self.new ≡ self.old) }
        ensures asked { IsTrue (passes self.old.pace to (kept bytes.now))
            → Exchanges (L.told self.old.inner) (L.told self.new.inner) [] (sent_by result to bytes.now) }
        ensures paced { IsTrue (passes self.old.pace to (kept bytes.now)) → self.new.pace ≡ after_send self.old.pace to (kept bytes.now) result }
    {
        let datagram = Datagram::of(bytes);
        if !self.pace.passes(to, &datagram) {
            return Ok(());
        }
        self.inner.send(to, bytes)?;
        self.pace.pass(to, datagram);
        Ok(())
    }

    fn receive(&mut self, buffer: &mut [u8; BUFFER_LEN]) -> Result<Option<usize>, LinkFault>
        ensures in_bounds { IfOk result (λ got. IfSome got (λ n. n ≤ BUFFER_LEN)) }
        ensures faults { CountsFault result (L.fault_count self.old.inner) (L.fault_count self.new.inner) }

        ensures asked { Exchanges (L.told self.old.inner) (L.told self.new.inner) (taken_by result buffer.new) [] }
        ensures paced { self.new.pace ≡ after_receive self.old.pace result }
        ensures silent { result ≡ Ok None → (to : Party) (datagram : List ℕ) → IsTrue (passes self.new.pace to datagram) }
    {
        let got = self.inner.receive(buffer)?;
        match got {
            Some(_) => self.pace.receive(),
            None => self.pace.silence(),
        }
        Ok(got)
    }

    fn faults(&self) -> u64 {
        self.inner.faults()
    }
}
