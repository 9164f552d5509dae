//! A link that is watched.

ghost use Rattle.std.specs.Prelude.{◌≡◌, ◌≤◌, [], Option, IfOk, IfSome};
ghost use Rattle.scoop_link.specs.Link.{CountsFault, Exchanges, sent_by, taken_by};

use crate::link_counts::add_one;
use crate::watch::Watch;
use scoop_link::{Link, LinkFault, Party};
use scoop_message::limits::BUFFER_LEN;
use scoop_seal::SealedLink;
use std::marker::Model;
use std::sync::atomic::Ordering;

/// A link that counts what passes through the one under it. Contracts see the link under it.
#[derive(Drop)]
pub struct WatchedLink<'a, L> {
    inner: SealedLink<L>,
    watch: &'a Watch,
}

impl<'a, L> Model for WatchedLink<'a, L> {
    ghost use Rattle.scoop_seal.specs.Sealed.{SealedValue};

    ghost Value = { SealedValue L };

    ghost view = { λ w. w.inner };
}

impl<'a, L: Link> WatchedLink<'a, L> {
    /// Watches this link.
    pub fn new(inner: SealedLink<L>, watch: &'a Watch) -> WatchedLink<'a, L>
        ensures { result ≡ inner }
    {
        WatchedLink { inner, watch }
    }
}

impl<'a, L: Link> Link for WatchedLink<'a, L> {
    ghost told = { ⟦<SealedLink<L> as Link>⟧.told };

    ghost fault_count = { ⟦<SealedLink<L> as Link>⟧.fault_count };

    fn send(&mut self, to: Party, bytes: &[u8]) -> Result<(), LinkFault> {
        let sent = self.inner.send(to, bytes);
        let counts = self.watch.link_counts();
        match sent {
            Ok(()) => add_one(&counts.sent),
            Err(_) => add_one(&counts.faults),
        }
        sent
    }

    fn receive(&mut self, buffer: &mut [u8; BUFFER_LEN]) -> Result<Option<usize>, LinkFault> {
        let got = self.inner.receive(buffer);
        let counts = self.watch.link_counts();
        match got {
            Ok(Some(_)) => add_one(&counts.received),
            Ok(None) => {}
            Err(_) => add_one(&counts.faults),
        }
        counts.refused.store(self.inner.refused(), Ordering::SeqCst);
        got
    }

    fn flush(&mut self) -> Result<(), LinkFault> {
        let flushed = self.inner.flush();
        if flushed.is_err() {
            add_one(&self.watch.link_counts().faults);
        }
        flushed
    }

    fn faults(&self) -> u64 {
        self.inner.faults()
    }
}
