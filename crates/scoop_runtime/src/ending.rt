//! The end of a node that another thread asks for.

use scoop_link::{Link, LinkFault, Party};
use scoop_message::limits::BUFFER_LEN;
use scoop_netloop::Stop;
use std::sync::atomic::{AtomicBool, Ordering};

/// Asks a node to end, from any thread.
#[derive(Drop)]
pub struct Ending {
    asked: AtomicBool,
}

impl Ending {
    /// An ending that isn't asked for yet.
    pub fn new() -> Ending {
        Ending {
            asked: AtomicBool::new(false),
        }
    }

    /// Asks the node to end after its next receive.
    pub fn ask(&self) {
        self.asked.store(true, Ordering::SeqCst);
    }

    fn is_asked(&self) -> bool {
        self.asked.load(Ordering::SeqCst)
    }
}

/// The link of a loop, which it asks to stop once its node is asked to end. An executor asks the stop too when it fails, so
/// each loop has its own, and the ending is that of the node.
#[derive(Drop)]
pub(crate) struct EndingLink<'a, L: Link> {
    inner: &'a mut L,
    ending: &'a Ending,
    stop: &'a Stop,
}

impl<'a, L: Link> EndingLink<'a, L> {
    /// The link of the loop that this stop ends.
    pub(crate) fn new(inner: &'a mut L, ending: &'a Ending, stop: &'a Stop) -> EndingLink<'a, L> {
        EndingLink {
            inner,
            ending,
            stop,
        }
    }
}

impl<L: Link> Link for EndingLink<'_, L> {
    ghost told = { λ l. L.told l.inner.now };

    ghost fault_count = { λ l. L.fault_count l.inner.now };

    fn send(&mut self, to: Party, bytes: &[u8]) -> Result<(), LinkFault> {
        self.inner.send(to, bytes)
    }

    fn receive(&mut self, buffer: &mut [u8; BUFFER_LEN]) -> Result<Option<usize>, LinkFault> {
        if self.ending.is_asked() {
            self.stop.ask();
        }
        self.inner.receive(buffer)
    }

    fn flush(&mut self) -> Result<(), LinkFault> {
        self.inner.flush()
    }

    fn faults(&self) -> u64 {
        self.inner.faults()
    }
}
