//! A link that one life of a client borrows.

ghost use Rattle.std.specs.Prelude.{◌≡◌};

use scoop_link::{Link, LinkFault, Party};
use scoop_message::limits::BUFFER_LEN;
use std::marker::Model;

/// A link that one life of a client borrows. The client's next life goes on with the same link. Contracts see that link.
#[derive(Drop)]
pub struct LentLink<'l, L: Link> {
    inner: &'l mut L,
}

impl<'l, L: Link> Model for LentLink<'l, L> {
    ghost Value = { L };

    ghost view = { λ l. l.inner.now };
}

impl<'l, L: Link> LentLink<'l, L> {
    /// The link for one life.
    pub fn new(inner: &'l mut L) -> LentLink<'l, L>
        ensures { result ≡ inner.old }
    {
        LentLink { inner }
    }
}

impl<L: Link> Link for LentLink<'_, L> {
    ghost told = { λ l. L.told l };

    ghost fault_count = { λ l. L.fault_count l };

    fn send(&mut self, to: Party, bytes: &[u8]) -> Result<(), LinkFault> {
        self.inner.send(to, bytes)
    }

    fn receive(&mut self, buffer: &mut [u8; BUFFER_LEN]) -> Result<Option<usize>, LinkFault> {
        self.inner.receive(buffer)
    }

    fn flush(&mut self) -> Result<(), LinkFault> {
        self.inner.flush()
    }

    fn faults(&self) -> u64 {
        self.inner.faults()
    }
}
