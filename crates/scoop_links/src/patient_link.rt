//! A link that tolerates faults.

ghost use Rattle.std.specs.Prelude.{◌≡◌, ◌≤◌, ◌<◌, ◌+◌, ◌++◌, ◌∷◌, [], None, IfOk, IfSome, OnErr, OnOk};
ghost use Rattle.std.specs.Io.KnownBytes.{Appends};
ghost use Rattle.scoop_link.specs.Link.{CountsFault, Exchanges, taken_by};
ghost use Rattle.scoop_links.specs.Forwarding.{Forwards};
ghost use Rattle.scoop_links.specs.Texts.{fault_text};

use scoop_link::{Link, LinkFault, MAX_HELD, Party};
use scoop_message::limits::BUFFER_LEN;
use std::io;
use std::io::Write;
use std::marker::Model;

// At this many failed calls in a row this link fails too.
const MAX_IN_A_ROW: u32 = 1_000;

// The number of receives between two notes on failed calls. Over UDP they take at most a second.
const NOTE_EVERY: u64 = 100;

/// A node's or a client's link that tolerates faults. A call of the link below may fail, as a send to a party that can't be
/// reached. The datagram is lost then; only the thousandth failure in a row is a fault. It writes a note on the first
/// failure, and later ones at least a hundred receives apart. Notes that can't be written are lost. It counts its receives,
/// each of which is a turn of its party, and doesn't record its datagrams. Contracts see the link below it, and how many
/// faults count.
#[derive(Drop)]
pub struct PatientLink<L: Link, E: Write + Drop> {
    inner: L,
    party: &'static str,
    notes: E,
    quiet_until: u64,
    in_a_row: u32,
    receives: u64,
    faults: u64,
}

impl<L: Link, E: Write + Drop> Model for PatientLink<L, E> {
    ghost use Rattle.scoop_links.specs.Forwarding.{PatientValue};

    ghost Value = { PatientValue L };

    ghost view = { λ p. record { inner = p.inner; faults = p.faults } };
}

impl<L: Link, E: Write + Drop> PatientLink<L, E> {
    /// The link of a `node` or a `client`, none of whose calls has failed.
    pub fn new(inner: L, party: &'static str, notes: E) -> PatientLink<L, E>
        ensures { (result.inner ≡ inner) × (result.faults ≡ 0) }
    {
        PatientLink {
            inner,
            party,
            notes,
            quiet_until: 0,
            in_a_row: 0,
            receives: 0,
            faults: 0,
        }
    }

    /// The number of receives. The count stops at 2^64-1.
    pub fn receives(&self) -> u64 {
        self.receives
    }

    // Writes that a call has failed, unless another note was written just before.
    fn tell(&mut self)
        ensures inner { self.new.inner ≡ self.old.inner }
        ensures faults { self.new.faults ≡ self.old.faults }
    {
        if self.receives >= self.quiet_until {
            self.quiet_until = self.receives.saturating_add(NOTE_EVERY);
            tell_fault(self.party, &mut self.notes);
        }
    }

    // Counts a failed call.
    fn fail(&mut self) -> Result<(), LinkFault>
        ensures counted { CountsFault result self.old.faults self.new.faults }
        ensures inner { self.new.inner ≡ self.old.inner }
    {
        self.tell();
        self.in_a_row = self.in_a_row.saturating_add(1);
        if self.in_a_row < MAX_IN_A_ROW || self.faults == u64::MAX {
            return Ok(());
        }
        self.faults += 1;
        Err(LinkFault)
    }
}

// Writes that a call has failed.
fn print_fault<W: Write>(party: &str, writer: &mut W) -> io::Result<()>
    ensures { OnOk result (Appends (W.contents writer.old) (W.contents writer.new) (fault_text party.now)) }
{
    writeln!(writer, "scoop: link: LinkFault, and the {party} goes on")
}

// Writes the same and flushes. A note that can't be written is lost.
fn tell_fault<W: Write>(party: &str, writer: &mut W) {
    if print_fault(party, writer).is_ok() {
        let _flushed = writer.flush();
    }
}

impl<L: Link, E: Write + Drop> Link for PatientLink<L, E> {
    ghost told = { λ _. None };

    ghost fault_count = { λ p. p.faults };

    fn send(&mut self, to: Party, bytes: &[u8]) -> Result<(), LinkFault>
        ensures faults { CountsFault result self.old.faults self.new.faults }

        ensures sent { Forwards to bytes.now (L.fault_count self.old.inner) (L.fault_count self.new.inner) (L.told self.old.inner) (L.told self.new.inner) }
        ensures failed { OnErr result (L.fault_count self.new.inner ≡ L.fault_count self.old.inner + 1) }
    {
        match self.inner.send(to, bytes) {
            Ok(()) => {
                self.in_a_row = 0;
                Ok(())
            }
            Err(_) => self.fail(),
        }
    }

    fn receive(&mut self, buffer: &mut [u8; BUFFER_LEN]) -> Result<Option<usize>, LinkFault>
        ensures in_bounds { IfOk result (λ got. IfSome got (λ n. n ≤ BUFFER_LEN)) }
        ensures faults { CountsFault result self.old.faults self.new.faults }

        ensures taken { Exchanges (L.told self.old.inner) (L.told self.new.inner) (taken_by result buffer.new) [] }
        ensures failed { OnErr result (L.fault_count self.new.inner ≡ L.fault_count self.old.inner + 1) }
    {
        self.receives = self.receives.saturating_add(1);
        match self.inner.receive(buffer) {
            Ok(got) => {
                self.in_a_row = 0;
                Ok(got)
            }
            Err(_) => {
                self.fail()?;
                Ok(None)
            }
        }
    }

    fn flush(&mut self) -> Result<(), LinkFault>
        ensures faults { CountsFault result self.old.faults self.new.faults }

        ensures flushed { Exchanges (L.told self.old.inner) (L.told self.new.inner) [] [] }
        ensures failed { OnErr result (L.fault_count self.old.inner < L.fault_count self.new.inner) }
    {
        // a datagram that can't be sent holds no other one back
        for _ in 0..MAX_HELD {
            match self.inner.flush() {
                Ok(()) => return Ok(()),
                Err(_) => self.fail()?,
            }
        }
        Ok(())
    }

    fn faults(&self) -> u64 {
        self.faults
    }
}
