//! The token under a store's owner's key.

ghost use Rattle.std.specs.Prelude.{◌≡◌, ◌∷◌, [], IfOk, OnOk, IsTrue};
ghost use Rattle.scoop_etcd.specs.Etcd.{HasRevision, SameKeys, conditions_of, entries_of};
ghost use Rattle.scoop_etcd.specs.Owning.{Owns, Takes, keys_of};
ghost use Rattle.scoop_etcd.specs.declared.fault.StoreFault.{StoreFault};

use crate::etcd::{Etcd, EtcdError};
use crate::fault::StoreFault;
use crate::finding::find;
use crate::keys::Keys;
use scoop_etcd_calls::{Compare, Put, Txn};
use scoop_message::OutOfMemory;
use std::alloc::Global;

/// Looks the owner's key up. Refused: `TakenOver` exactly if another token stands there or none, and the errors of a range.
pub(crate) fn check_owner<E: Etcd>(
    alloc: Global,
    etcd: &mut E,
    keys: &Keys,
) -> Result<(), StoreFault>
    ensures owns { E.is_honest etcd.new → OnOk result (Owns (E.contents etcd.new) (keys_of keys.now)) }
    ensures taken { E.is_honest etcd.new → result ≡ Err StoreFault.TakenOver → Owns (E.contents etcd.new) (keys_of keys.now) → ⊥ }
    ensures stays { E.is_alone etcd.new → SameKeys (E.contents etcd.old) (E.contents etcd.new) }
    ensures honest { E.is_honest etcd.new → E.is_honest etcd.old }
    ensures alone { E.is_alone etcd.new → E.is_alone etcd.old }
{
    let Some(pair) = find(alloc, etcd, &keys.owner)? else {
        return Err(StoreFault::TakenOver);
    };
    if pair.value.as_slice() == keys.token.as_slice() {
        Ok(())
    } else {
        Err(StoreFault::TakenOver)
    }
}

// Puts the token if the owner's key stands at this revision, or is absent at 0.
fn taking(alloc: Global, keys: &Keys, revision: u64) -> Result<Txn, OutOfMemory>
    ensures conditions { IfOk result (λ txn. conditions_of txn ≡ HasRevision (keys_of keys.now).owner revision ∷ []) }
    ensures entries { IfOk result (λ txn. entries_of txn ≡ ((keys_of keys.now).owner, (keys_of keys.now).token) ∷ []) }
{
    let compared = Vec::from_slice(alloc, &keys.owner)?;
    let key = Vec::from_slice(alloc, &keys.owner)?;
    let value = Vec::from_slice(alloc, &keys.token)?;
    let compares = vec![in alloc; Compare::Revision(compared, revision)]?;
    let puts = vec![in alloc; Put { key, value }]?;
    Ok(Txn { compares, puts })
}

/// Puts the token if the owner's key stands at this revision, or is absent at 0. Returns whether it was put. Refused with
/// the errors of a transaction.
pub(crate) fn take<E: Etcd>(
    alloc: Global,
    etcd: &mut E,
    keys: &Keys,
    revision: u64,
) -> Result<bool, EtcdError>
    ensures taken { E.is_honest etcd.new → IfOk result (λ taken. IsTrue taken
        → Takes (E.is_alone etcd.new) (E.contents etcd.old) (E.contents etcd.new) (keys_of keys.now) revision) }
    ensures honest { E.is_honest etcd.new → E.is_honest etcd.old }
    ensures alone { E.is_alone etcd.new → E.is_alone etcd.old }
{
    let txn = taking(alloc, keys, revision)?;
    let outcome = etcd.transact(&txn)?;
    Ok(outcome.succeeded)
}
