//! A link whose datagrams carry a tag, if it has a key.

ghost use Rattle.std.specs.Prelude.{◌≡◌, ◌≤◌, ◌<◌, [], Some, length, IfOk, IfSome, IfNone, IsSome};
ghost use Rattle.scoop_link.specs.Link.{CountsFault, Exchanges, sent_by, taken_by};
ghost use Rattle.scoop_seal.specs.Tag.{sealed};
ghost use Rattle.scoop_seal.specs.Sealed.{seals, told_by, faults_by, fault_sum, own_after, gone, Opens, IsTagged, TakesOne};

use crate::key::Key;
use crate::tag::{MAX_BYTES, opened, seal};
use scoop_link::{Link, LinkFault, Party, SetsAddress};
use scoop_message::limits::BUFFER_LEN;
use std::marker::Model;
use std::net::SocketAddr;

// The most datagrams that one receive takes.
const MAX_TAKEN: usize = 64;

// The outcome of one receive of the inner link.
enum Taken {
    Nothing,
    // A datagram that was not sealed.
    Forged,
    // This number of bytes, with their tag after them.
    Genuine(usize),
}

/// A link that sends bytes sealed, and gives only those that were sealed with its key.
///
/// After the bytes stand the first sixteen bytes of their code by RFC 2104 with SHA-256 and the key. A send of
/// more than `MAX_BYTES` bytes is a fault of its own. A receive takes datagrams from the inner link, at most
/// `MAX_TAKEN`, until one has the right tag, and gives the bytes before that tag. It counts the others. It gives
/// nothing if nothing came or no datagram had the right tag. Its count of faults adds its own to those of the
/// inner link.
///
/// Without the key a sender can't make a datagram that is given, but can repeat one that was sent. Nothing is
/// secret except the key. Contracts see the inner link, the key and both counts. A link with a key doesn't record its
/// datagrams. One without a key passes every call on.
#[derive(Drop)]
pub struct SealedLink<L> {
    inner: L,
    key: Option<Key>,
    refused: u64,
    faults: u64,
}

impl<L> Model for SealedLink<L> {
    ghost use Rattle.scoop_seal.specs.Sealed.{SealedValue};

    ghost Value = { SealedValue L };

    ghost view = { λ s. record { inner = s.inner; key = s.key; refused = s.refused; faults = s.faults } };
}

impl<L: Link> SealedLink<L> {
    /// Seals an inner link's datagrams with the key, if there is one.
    pub fn new(inner: L, key: Option<Key>) -> SealedLink<L>
        ensures { result ≡ seals inner key }
    {
        SealedLink {
            inner,
            key,
            refused: 0,
            faults: 0,
        }
    }

    /// The inner link.
    pub fn inner(&self) -> &L
        ensures { result.now ≡ self.now.inner }
    {
        &self.inner
    }

    /// The number of datagrams taken without the right tag. It stops at 2^64-1.
    pub fn refused(&self) -> u64
        ensures { result ≡ self.now.refused }
    {
        self.refused
    }

    // The number of sends and receives that failed, here and in the inner link.
    fn count(&self) -> u64
        ensures { result ≡ faults_by self.now.key self.now.faults (L.fault_count self.now.inner) }
    {
        match self.key {
            Some(_) => self.faults.saturating_add(self.inner.faults()),
            None => self.inner.faults(),
        }
    }

    // Takes one datagram from the inner link.
    fn take(&mut self, key: &Key, buffer: &mut [u8; BUFFER_LEN]) -> Result<Taken, LinkFault>
        ensures faults { CountsFault result (L.fault_count self.old.inner) (L.fault_count self.new.inner) }
        ensures taken { TakesOne result key.now (L.told self.old.inner) (L.told self.new.inner) self.old.refused self.new.refused buffer.new }
        ensures others { (self.new.key ≡ self.old.key) × (self.new.faults ≡ self.old.faults) }
    {
        let Some(len) = self.inner.receive(buffer)? else {
            return Ok(Taken::Nothing);
        };
        match opened(key, &buffer[..len]) {
            Some(len) => Ok(Taken::Genuine(len)),
            None => {
                self.refused = self.refused.saturating_add(1);
                Ok(Taken::Forged)
            }
        }
    }

    // Sends bytes sealed with this key, which is the link's.
    fn send_sealed(&mut self, key: &Key, to: Party, bytes: &[u8]) -> Result<(), LinkFault>
        requires { self.old.key ≡ Some key.now }
        ensures faults { CountsFault result (fault_sum self.old.faults (L.fault_count self.old.inner))
            (fault_sum self.new.faults (L.fault_count self.new.inner)) }

        ensures too_long { MAX_BYTES < length bytes.now → self.new ≡ record self.old { faults = own_after self.old.faults (L.fault_count self.old.inner) } }
        ensures sealed { length bytes.now ≤ MAX_BYTES
            → Exchanges (L.told self.old.inner) (L.told self.new.inner) []
            (gone (L.fault_count self.old.inner) (L.fault_count self.new.inner) to (sealed key.now bytes.now)) }
        ensures others { length bytes.now ≤ MAX_BYTES → self.new ≡ record self.old { inner = self.new.inner } }
        ensures key { self.new.key ≡ self.old.key }
    {
        let full = self.count() == u64::MAX;
        if bytes.len() > MAX_BYTES {
            if full {
                return Ok(());
            }
            self.faults += 1;
            return Err(LinkFault);
        }
        let mut buffer = [0; BUFFER_LEN];
        let len = seal(key, bytes, &mut buffer);
        let sent = self.inner.send(to, &buffer[..len]);
        if full { Ok(()) } else { sent }
    }

    // Receives bytes that were sealed with this key, which is the link's.
    fn receive_sealed(
        &mut self,
        key: &Key,
        buffer: &mut [u8; BUFFER_LEN],
    ) -> Result<Option<usize>, LinkFault>
        requires { self.old.key ≡ Some key.now }
        ensures in_bounds { IfOk result (λ got. IfSome got (λ n. n ≤ BUFFER_LEN)) }
        ensures faults { CountsFault result (fault_sum self.old.faults (L.fault_count self.old.inner))
            (fault_sum self.new.faults (L.fault_count self.new.inner)) }

        ensures opened { Opens key.now (L.told self.old.inner) (L.told self.new.inner) self.old.refused self.new.refused (taken_by result buffer.new) }
        ensures tagged { IfOk result (λ got. IfSome got (IsTagged key.now buffer.new)) }
        ensures others { (self.new.key ≡ self.old.key) × (self.new.faults ≡ self.old.faults) }
    {
        for _ in 0..MAX_TAKEN {
            let full = self.count() == u64::MAX;
            match self.take(key, buffer) {
                Ok(Taken::Forged) => {}
                Ok(Taken::Nothing) => return Ok(None),
                Ok(Taken::Genuine(len)) => return Ok(Some(len)),
                Err(_) if full => return Ok(None),
                Err(fault) => return Err(fault),
            }
        }
        Ok(None)
    }

    // Sends what the inner link holds back. This link has a key.
    fn flush_sealed(&mut self) -> Result<(), LinkFault>
        requires { IsSome self.old.key }
        ensures faults { CountsFault result (fault_sum self.old.faults (L.fault_count self.old.inner))
            (fault_sum self.new.faults (L.fault_count self.new.inner)) }

        ensures flushed { Exchanges (L.told self.old.inner) (L.told self.new.inner) [] [] }
        ensures others { self.new ≡ record self.old { inner = self.new.inner } }
    {
        let full = self.count() == u64::MAX;
        let flushed = self.inner.flush();
        if full { Ok(()) } else { flushed }
    }
}

impl<L: Link> Link for SealedLink<L> {
    ghost told = { λ s. told_by s.key (L.told s.inner) };

    ghost fault_count = { λ s. faults_by s.key s.faults (L.fault_count s.inner) };

    fn send(&mut self, to: Party, bytes: &[u8]) -> Result<(), LinkFault>
        ensures faults { CountsFault result (faults_by self.old.key self.old.faults (L.fault_count self.old.inner))
            (faults_by self.new.key self.new.faults (L.fault_count self.new.inner)) }
        ensures told { Exchanges (told_by self.old.key (L.told self.old.inner)) (told_by self.new.key (L.told self.new.inner)) [] (sent_by result to bytes.now) }

        ensures too_long { IfSome self.old.key (λ _. MAX_BYTES < length bytes.now
            → self.new ≡ record self.old { faults = own_after self.old.faults (L.fault_count self.old.inner) }) }
        ensures sealed { IfSome self.old.key (λ key. length bytes.now ≤ MAX_BYTES
            → Exchanges (L.told self.old.inner) (L.told self.new.inner) []
            (gone (L.fault_count self.old.inner) (L.fault_count self.new.inner) to (sealed key bytes.now))) }
        ensures others { IfSome self.old.key (λ _. length bytes.now ≤ MAX_BYTES → self.new ≡ record self.old { inner = self.new.inner }) }
        ensures plain { IfNone self.old.key (self.new ≡ record self.old { inner = self.new.inner }) }
    {
        match self.key {
            Some(key) => self.send_sealed(&key, to, bytes),
            None => self.inner.send(to, bytes),
        }
    }

    fn receive(&mut self, buffer: &mut [u8; BUFFER_LEN]) -> Result<Option<usize>, LinkFault>
        ensures in_bounds { IfOk result (λ got. IfSome got (λ n. n ≤ BUFFER_LEN)) }
        ensures faults { CountsFault result (faults_by self.old.key self.old.faults (L.fault_count self.old.inner))
            (faults_by self.new.key self.new.faults (L.fault_count self.new.inner)) }
        ensures told { Exchanges (told_by self.old.key (L.told self.old.inner)) (told_by self.new.key (L.told self.new.inner)) (taken_by result buffer.new) [] }

        ensures opened { IfSome self.old.key (λ key. Opens key (L.told self.old.inner) (L.told self.new.inner) self.old.refused self.new.refused (taken_by result buffer.new)) }
        ensures tagged { IfSome self.old.key (λ key. IfOk result (λ got. IfSome got (IsTagged key buffer.new))) }
        ensures others { (self.new.key ≡ self.old.key) × (self.new.faults ≡ self.old.faults) }
        ensures plain { IfNone self.old.key (self.new.refused ≡ self.old.refused) }
    {
        match self.key {
            Some(key) => self.receive_sealed(&key, buffer),
            None => self.inner.receive(buffer),
        }
    }

    // A link with a key waits as the inner link does.
    fn set_waits(&mut self, waits: bool)
        ensures faults { faults_by self.new.key self.new.faults (L.fault_count self.new.inner)
            ≡ faults_by self.old.key self.old.faults (L.fault_count self.old.inner) }
        ensures told { Exchanges (told_by self.old.key (L.told self.old.inner)) (told_by self.new.key (L.told self.new.inner)) [] [] }
        ensures others { self.new ≡ record self.old { inner = self.new.inner } }
    {
        self.inner.set_waits(waits);
    }

    fn flush(&mut self) -> Result<(), LinkFault>
        ensures faults { CountsFault result (faults_by self.old.key self.old.faults (L.fault_count self.old.inner))
            (faults_by self.new.key self.new.faults (L.fault_count self.new.inner)) }
        ensures told { Exchanges (told_by self.old.key (L.told self.old.inner)) (told_by self.new.key (L.told self.new.inner)) [] [] }

        ensures flushed { Exchanges (L.told self.old.inner) (L.told self.new.inner) [] [] }
        ensures others { self.new ≡ record self.old { inner = self.new.inner } }
    {
        match self.key {
            Some(_) => self.flush_sealed(),
            None => self.inner.flush(),
        }
    }

    fn faults(&self) -> u64 {
        self.count()
    }
}

impl<L: SetsAddress> SetsAddress for SealedLink<L> {
    ghost addresses = { λ s. L.addresses s.inner };

    ghost came_from = { λ s. L.came_from s.inner };

    fn set_address(&mut self, party: Party, address: SocketAddr) {
        self.inner.set_address(party, address);
    }

    fn origin(&self) -> Option<SocketAddr> {
        self.inner.origin()
    }
}
