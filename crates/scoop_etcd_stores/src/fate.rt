//! The reason why the keeper of a store refused, for callers that ask after it is gone.

use crate::error::EtcdFault;
use scoop_etcd::{EtcdError, StoreFault};
use std::sync::atomic::{AtomicU8, Ordering};

// Nothing was refused.
const NONE: u8 = 0;

/// Why a keeper refused last, if it did. The keeper borrows it, and notes it here.
#[derive(Drop)]
pub struct Fate {
    code: AtomicU8,
}

fn code_of(fault: StoreFault) -> u8 {
    match fault {
        StoreFault::TakenOver => 1,
        StoreFault::Overtaken => 2,
        StoreFault::Etcd(EtcdError::Unreachable) => 3,
        StoreFault::Etcd(EtcdError::NoSpace) => 4,
        StoreFault::Etcd(EtcdError::Refused) => 5,
        StoreFault::Etcd(EtcdError::BadAnswer) => 6,
        StoreFault::Etcd(EtcdError::OutOfMemory) => 7,
    }
}

fn fault_of(code: u8) -> Option<EtcdFault> {
    match code {
        1 => Some(EtcdFault::TakenOver),
        2 => Some(EtcdFault::Overtaken),
        3 => Some(EtcdFault::Unreachable),
        4 => Some(EtcdFault::NoSpace),
        5 => Some(EtcdFault::Refused),
        6 => Some(EtcdFault::BadAnswer),
        7 => Some(EtcdFault::OutOfMemory),
        _ => None,
    }
}

impl Fate {
    /// Nothing was refused yet.
    pub fn new() -> Fate {
        Fate {
            code: AtomicU8::new(NONE),
        }
    }

    /// Why the last refused call was refused.
    pub fn fault(&self) -> Option<EtcdFault> {
        fault_of(self.code.load(Ordering::SeqCst))
    }

    pub(crate) fn note(&self, fault: StoreFault) {
        self.code.store(code_of(fault), Ordering::SeqCst);
    }
}
