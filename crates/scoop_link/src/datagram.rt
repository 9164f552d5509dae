//! The part of a datagram that a link keeps.

ghost use Rattle.std.specs.Prelude.{◌≡◌, ◌≤◌, length, take, drop};
ghost use Rattle.std.specs.VecDeque.{deque_len, deque_capacity};
ghost use Rattle.scoop_link.specs.Datagram.{kept, TakesFirst};

use scoop_message::limits::BUFFER_LEN;
use std::alloc::Allocator;
use std::collections::VecDeque;
use std::marker::Model;

/// A datagram as links keep it: its first `BUFFER_LEN` bytes. Contracts see these bytes.
#[derive(Drop)]
pub struct Datagram {
    bytes: [u8; BUFFER_LEN],
    len: usize,
}

impl Model for Datagram {
    ghost use Rattle.std.specs.Prelude.{ℕ, List, take, ◌≤◌};
    ghost use Rattle.scoop_message.specs.declared.limits.TheConstants.{BUFFER_LEN};

    ghost Value = { List ℕ };

    ghost view = { λ d. take d.len d.bytes };

    ghost invariant = { λ d. d.len ≤ BUFFER_LEN };
}

// Copies the part of some bytes that a link keeps to the start of a buffer, and returns its length.
fn copy_kept(bytes: &[u8], buffer: &mut [u8; BUFFER_LEN]) -> usize
    ensures in_bounds { result ≤ BUFFER_LEN }
    ensures copied { take result buffer.new ≡ kept bytes.now }
    ensures others { drop result buffer.new ≡ drop result buffer.old }
{
    let len = bytes.len().min(BUFFER_LEN);
    buffer[..len].copy_from_slice(&bytes[..len]);
    len
}

impl Datagram {
    /// Makes the datagram that a link keeps of some bytes.
    pub fn of(bytes: &[u8]) -> Datagram
        ensures { result ≡ kept bytes.now }
    {
        let mut buffer = [0; BUFFER_LEN];
        let len = copy_kept(bytes, &mut buffer);
        Datagram { bytes: buffer, len }
    }

    /// The bytes, at most `BUFFER_LEN`.
    pub fn as_slice(&self) -> &[u8]
        ensures value { result.now ≡ self.now }
        ensures limit { length self.now ≤ BUFFER_LEN }
    {
        &self.bytes[..self.len]
    }

    /// Copies the bytes to the start of a buffer, and returns their number. The rest of the buffer stays.
    pub fn write_to(&self, buffer: &mut [u8; BUFFER_LEN]) -> usize
        ensures in_bounds { result ≤ BUFFER_LEN }
        ensures written { take result buffer.new ≡ self.now }
        ensures others { drop result buffer.new ≡ drop result buffer.old }
    {
        buffer[..self.len].copy_from_slice(self.as_slice());
        self.len
    }
}

// Takes the first of some datagrams into a buffer.
pub(crate) fn take_first<A: Allocator>(
    datagrams: &mut VecDeque<Datagram, A>,
    buffer: &mut [u8; BUFFER_LEN],
) -> Option<usize>
    ensures first { TakesFirst result datagrams.old.items datagrams.new.items buffer.old buffer.new }
    ensures len { deque_len datagrams.new ≤ deque_len datagrams.old }
    ensures capacity { deque_capacity datagrams.new ≡ deque_capacity datagrams.old }
{
    let first = datagrams.pop_front()?;
    Some(first.write_to(buffer))
}
