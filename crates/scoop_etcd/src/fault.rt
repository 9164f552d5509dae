//! Why a store over an etcd refuses.

use crate::etcd::EtcdError;
use scoop_message::OutOfMemory;
use std::alloc::AllocError;
use thiserror::Error;

/// Why a call of a store was refused.
#[derive(Clone, Copy, Debug, PartialEq, Eq, Error)]
pub enum StoreFault {
    /// Another program has taken the store over. This store refuses every later call.
    #[error("another program has taken the store over")]
    TakenOver,
    /// A key changed while the store wrote it, and the store still owns it: a transaction of its own came late.
    #[error("an earlier call of this program came in between")]
    Overtaken,
    /// The etcd did not answer the call.
    #[error("{0}")]
    Etcd(EtcdError),
}

impl From<EtcdError> for StoreFault {
    ghost use Rattle.std.specs.Prelude.{◌≡◌};
    ghost use Rattle.scoop_etcd.specs.declared.fault.StoreFault.TheVariants as variants;

    ghost from_gives = { λ error fault. fault ≡ variants.Etcd error };

    fn from(error: EtcdError) -> StoreFault {
        StoreFault::Etcd(error)
    }
}

impl From<OutOfMemory> for StoreFault {
    ghost use Rattle.std.specs.Prelude.{◌≡◌};
    ghost use Rattle.scoop_etcd.specs.declared.etcd.EtcdError.TheVariants as errors;
    ghost use Rattle.scoop_etcd.specs.declared.fault.StoreFault.TheVariants as variants;

    ghost from_gives = { λ _ fault. fault ≡ variants.Etcd errors.OutOfMemory };

    fn from(_: OutOfMemory) -> StoreFault {
        StoreFault::Etcd(EtcdError::OutOfMemory)
    }
}

impl From<AllocError> for EtcdError {
    ghost use Rattle.std.specs.Prelude.{◌≡◌};
    ghost use Rattle.scoop_etcd.specs.declared.etcd.EtcdError.TheVariants as errors;

    ghost from_gives = { λ _ error. error ≡ errors.OutOfMemory };

    fn from(_: AllocError) -> EtcdError {
        EtcdError::OutOfMemory
    }
}

impl From<OutOfMemory> for EtcdError {
    ghost use Rattle.std.specs.Prelude.{◌≡◌};
    ghost use Rattle.scoop_etcd.specs.declared.etcd.EtcdError.TheVariants as errors;

    ghost from_gives = { λ _ error. error ≡ errors.OutOfMemory };

    fn from(_: OutOfMemory) -> EtcdError {
        EtcdError::OutOfMemory
    }
}
