//! An alarm that ends all parties of a demo once one of them can't go on.

use scoop_errors::PartyError;
use scoop_netloop::Stop;
use std::sync::atomic::{AtomicBool, Ordering};
use std::sync::{Mutex, Wait};

/// The first party that can't go on rings it. Then the nodes are asked to stop and the links of the clients fail, so
/// that no party waits for another in vain.
#[derive(Drop)]
pub(crate) struct Alarm {
    is_rung: AtomicBool,
    first: Mutex<Option<PartyError>>,
    stop: Stop,
}

impl Alarm {
    /// An alarm that hasn't been rung.
    pub(crate) fn new() -> Alarm {
        Alarm {
            is_rung: AtomicBool::new(false),
            first: Mutex::new(None),
            stop: Stop::new(),
        }
    }

    /// Keeps the error if it is the first, and stops every party.
    pub(crate) fn ring<R: Wait>(&self, rt: &R, error: PartyError) {
        let mut first = self.first.lock(rt);
        if first.is_none() {
            *first = Some(error);
        }
        drop(first);
        self.is_rung.store(true, Ordering::SeqCst);
        self.stop.ask();
    }

    /// Whether it was rung.
    pub(crate) fn is_rung(&self) -> bool {
        self.is_rung.load(Ordering::SeqCst)
    }

    /// The request to stop that the nodes watch.
    pub(crate) fn stop(&self) -> &Stop {
        &self.stop
    }

    /// The first error, if it was rung.
    pub(crate) fn first<R: Wait>(&self, rt: &R) -> Option<PartyError> {
        let first = self.first.lock(rt);
        *first
    }
}
