//! A link that fails once another party can't go on.

ghost use Rattle.std.specs.Prelude.{None};

use crate::alarm::Alarm;
use scoop_link::{Link, LinkFault, Party};
use scoop_message::limits::BUFFER_LEN;

/// A link whose calls all fail after the alarm was rung, so that a client ends at once. Without it the client would use
/// up the turns of its call, since no node answers. It doesn't record its datagrams.
#[derive(Drop)]
pub(crate) struct GuardedLink<'a, L: Link> {
    inner: L,
    alarm: &'a Alarm,
    faults: u64,
}

impl<'a, L: Link> GuardedLink<'a, L> {
    /// The link with this alarm as its guard.
    pub(crate) fn new(inner: L, alarm: &'a Alarm) -> GuardedLink<'a, L> {
        GuardedLink {
            inner,
            alarm,
            faults: 0,
        }
    }
}

impl<'a, L: Link> Link for GuardedLink<'a, L> {
    ghost told = { λ _. None };

    ghost fault_count = { λ l. l.faults };

    fn send(&mut self, to: Party, bytes: &[u8]) -> Result<(), LinkFault> {
        if !self.alarm.is_rung() && self.inner.send(to, bytes).is_ok() {
            return Ok(());
        }
        if self.faults == u64::MAX {
            return Ok(());
        }
        self.faults += 1;
        Err(LinkFault)
    }

    fn receive(&mut self, buffer: &mut [u8; BUFFER_LEN]) -> Result<Option<usize>, LinkFault> {
        if !self.alarm.is_rung() {
            if let Ok(got) = self.inner.receive(buffer) {
                return Ok(got);
            }
        }
        if self.faults == u64::MAX {
            return Ok(None);
        }
        self.faults += 1;
        Err(LinkFault)
    }

    fn faults(&self) -> u64 {
        self.faults
    }
}
