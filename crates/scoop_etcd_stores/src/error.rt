//! Errors of a store in an etcd.

use scoop_etcd::{EtcdError, OpenError, StoreFault};
use scoop_message::OutOfMemory;
use thiserror::Error;

// The status with which a program ends if its store isn't opened, or refuses.
const STATUS: u8 = 3;

/// Why a store in an etcd isn't opened, or refuses. Printed as the program prints it after `scoop: `.
#[derive(Clone, Copy, Debug, PartialEq, Eq, Error)]
pub enum EtcdFault {
    /// The party has a store of this name, or one of its handlers has a state there.
    #[error("store: Exists")]
    Exists,
    /// The party has no store of this name.
    #[error("store: NoStore")]
    NoStore,
    /// Another program took the store over at the same time.
    #[error("store: Raced")]
    Raced,
    /// Another program has taken the store over.
    #[error("store: TakenOver")]
    TakenOver,
    /// An earlier call of this program came late.
    #[error("store: Overtaken")]
    Overtaken,
    /// No member answered within the time.
    #[error("store: Unreachable")]
    Unreachable,
    /// The etcd's quota is used up.
    #[error("store: NoSpace")]
    NoSpace,
    /// The etcd refused the call.
    #[error("store: Refused")]
    Refused,
    /// The answer is no etcd's.
    #[error("store: BadAnswer")]
    BadAnswer,
    /// The operating system gives no random bytes for a token.
    #[error("store: NoToken")]
    NoToken,
    /// The allocator refused memory.
    #[error("out of memory")]
    OutOfMemory,
}

impl EtcdFault {
    /// The status with which the program ends: 3 for every fault.
    pub fn status(self) -> u8 {
        STATUS
    }

    /// Advice: what is wrong, and what to do.
    pub fn advice(self) -> &'static str {
        match self {
            EtcdFault::Exists => {
                "this party has a store of this name, or a handler of it has a state there: resume with --store if it is the \
                right one, else take a new name"
            }
            EtcdFault::NoStore => {
                "this party has no store of this name: name the right one, or make one by --new if this is the first run"
            }
            EtcdFault::Raced => {
                "another program took it over at the same time: see that only one of them runs, and start that again"
            }
            EtcdFault::TakenOver => {
                "another program has taken this store over and runs this party. Nothing that this one told is lost. To move the \
                party back here, start it again with --store"
            }
            EtcdFault::Overtaken => {
                "a call of this program, which it had given up, was made after all: resume with --store"
            }
            EtcdFault::Unreachable => {
                "no member answered within five seconds: check that more than half of the members run, and that this machine \
                reaches one of them; then resume with --store"
            }
            EtcdFault::NoSpace => {
                "the etcd has used up its quota: compact and defragment it, or raise the quota; clear the alarm by `etcdctl \
                alarm disarm`, and resume with --store"
            }
            EtcdFault::Refused => {
                "the etcd refused the call: its log says why. It has to take calls without a password; then resume with --store"
            }
            EtcdFault::BadAnswer => {
                "what answers there is no etcd of version 3.4 or later: check each HOST:PORT, and resume with --store"
            }
            EtcdFault::NoToken => {
                "the operating system gives no random bytes: report it to the machine's owner"
            }
            EtcdFault::OutOfMemory => "give it more memory, and resume with --store",
        }
    }
}

impl From<EtcdError> for EtcdFault {
    fn from(error: EtcdError) -> EtcdFault {
        match error {
            EtcdError::OutOfMemory => EtcdFault::OutOfMemory,
            EtcdError::Unreachable => EtcdFault::Unreachable,
            EtcdError::NoSpace => EtcdFault::NoSpace,
            EtcdError::Refused => EtcdFault::Refused,
            EtcdError::BadAnswer => EtcdFault::BadAnswer,
        }
    }
}

impl From<StoreFault> for EtcdFault {
    fn from(fault: StoreFault) -> EtcdFault {
        match fault {
            StoreFault::TakenOver => EtcdFault::TakenOver,
            StoreFault::Overtaken => EtcdFault::Overtaken,
            StoreFault::Etcd(error) => EtcdFault::from(error),
        }
    }
}

impl From<OpenError> for EtcdFault {
    fn from(error: OpenError) -> EtcdFault {
        match error {
            // A place has a good name.
            OpenError::BadName => EtcdFault::Refused,
            OpenError::Exists => EtcdFault::Exists,
            OpenError::NoStore => EtcdFault::NoStore,
            OpenError::Raced => EtcdFault::Raced,
            OpenError::Etcd(error) => EtcdFault::from(error),
        }
    }
}

impl From<OutOfMemory> for EtcdFault {
    fn from(_: OutOfMemory) -> EtcdFault {
        EtcdFault::OutOfMemory
    }
}
