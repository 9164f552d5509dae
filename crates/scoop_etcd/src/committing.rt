//! The transaction that stores states.

ghost use Rattle.std.specs.Prelude.{◌≡◌, List, ℕ, ◌∷◌, ◌++◌, [], map, IfOk, IfErr, OnOk, OnErr, IfSome, None, ◌≢◌};
ghost use Rattle.std.specs.List.{AllByRecursion};
ghost use Rattle.scoop_etcd.specs.Etcd.{HasValue, SameKeys, conditions_of, entries_of};
ghost use Rattle.scoop_etcd.specs.Owning.{Owns, keys_of};
ghost use Rattle.scoop_etcd.specs.States.{Commits, IsWritable, known_revision, state_condition, state_entry};
ghost use Rattle.scoop_etcd.specs.declared.fault.StoreFault.{StoreFault};

use crate::etcd::{Etcd, EtcdError};
use crate::fault::StoreFault;
use crate::finding::{find, revision_of};
use crate::keys::{Keys, handler_key};
use crate::owning::check_owner;
use crate::packing::pack;
use scoop_etcd_calls::{Compare, Put, Txn};
use scoop_handler::HandlerState;
use scoop_message::{HandlerId, OutOfMemory};
use scoop_record::images_of;
use std::alloc::Global;
use std::collections::BTreeMap;

/// The revision of each handler's key when it was last read or put, by the handler's number. It is 0 if nothing stood there. A
/// revision that is missing or too old costs a commit further calls, and nothing else.
pub(crate) type Revisions = BTreeMap<u32, u64>;

// The known revision of the handler's key, 0 if none is known.
fn known_revision(revisions: &Revisions, handler: HandlerId) -> u64
    ensures { result ≡ known_revision revisions.now.entries handler.0 }
{
    revisions.get(&handler.0).copied().unwrap_or(0)
}

// Adds the put of the state to the transaction, and the comparison of its key's known revision.
fn add_state(
    alloc: Global,
    keys: &Keys,
    revisions: &Revisions,
    state: &HandlerState,
    txn: &mut Txn,
) -> Result<(), OutOfMemory>
    ensures conditions { OnOk result (conditions_of txn.new
        ≡ conditions_of txn.old ++ state_condition (keys_of keys.now).name revisions.now.entries state.now ∷ []) }
    ensures entries { OnOk result (entries_of txn.new ≡ entries_of txn.old ++ state_entry (keys_of keys.now).name state.now ∷ []) }
    ensures writable { OnOk result (IsWritable state.now) }
{
    let handler = state.handler();
    let (image, entries) = images_of(alloc, state)?;
    let value = pack(alloc, &image, &entries)?;
    let key = handler_key(alloc, &keys.name, handler)?;
    let compared = Vec::from_slice(alloc, &key)?;
    let revision = known_revision(revisions, handler);
    txn.compares.push(Compare::Revision(compared, revision))?;
    txn.puts.push(Put { key, value })?;
    Ok(())
}

// Puts the states if the token stands and each state's key is at its known revision.
fn storing(
    alloc: Global,
    keys: &Keys,
    revisions: &Revisions,
    states: &[HandlerState],
) -> Result<Txn, OutOfMemory>
    ensures conditions { IfOk result (λ txn. conditions_of txn ≡ HasValue (keys_of keys.now).owner (keys_of keys.now).token
        ∷ map (state_condition (keys_of keys.now).name revisions.now.entries) states.now) }
    ensures entries { IfOk result (λ txn. entries_of txn ≡ map (state_entry (keys_of keys.now).name) states.now) }
    ensures writable { IfOk result (λ _. AllByRecursion IsWritable states.now) }
{
    let owner = Vec::from_slice(alloc, &keys.owner)?;
    let token = Vec::from_slice(alloc, &keys.token)?;
    let mut txn = Txn {
        compares: vec![in alloc; Compare::Value(owner, token)]?,
        puts: Vec::new(alloc),
    };
    for state in states {
        add_state(alloc, keys, revisions, state, &mut txn)?;
    }
    Ok(txn)
}

// Tries the transaction that stores the states. Returns the revision at which they were put, `None` if a comparison failed.
fn try_storing<E: Etcd>(
    alloc: Global,
    etcd: &mut E,
    keys: &Keys,
    revisions: &Revisions,
    states: &[HandlerState],
) -> Result<Option<u64>, EtcdError>
    ensures commits { E.is_honest etcd.new → IfOk result (λ made. IfSome made (λ _. Commits (E.is_alone etcd.new) (E.contents etcd.old)
        (E.contents etcd.new) (keys_of keys.now) revisions.now.entries states.now)) }
    ensures idle { E.is_honest etcd.new → E.is_alone etcd.new → result ≡ Ok None → SameKeys (E.contents etcd.old) (E.contents etcd.new) }
    ensures stays { E.is_alone etcd.new → OnErr result (SameKeys (E.contents etcd.old) (E.contents etcd.new)) }
    ensures honest { E.is_honest etcd.new → E.is_honest etcd.old }
    ensures alone { E.is_alone etcd.new → E.is_alone etcd.old }
{
    let txn = storing(alloc, keys, revisions, states)?;
    let outcome = etcd.transact(&txn)?;
    if outcome.succeeded {
        Ok(Some(outcome.revision))
    } else {
        Ok(None)
    }
}

// Reads the revisions of the states' keys.
fn reread<E: Etcd>(
    alloc: Global,
    etcd: &mut E,
    keys: &Keys,
    revisions: &mut Revisions,
    states: &[HandlerState],
) -> Result<(), StoreFault>
    ensures stays { E.is_alone etcd.new → SameKeys (E.contents etcd.old) (E.contents etcd.new) }
    ensures honest { E.is_honest etcd.new → E.is_honest etcd.old }
    ensures alone { E.is_alone etcd.new → E.is_alone etcd.old }
    ensures named { IfErr result (λ fault. fault ≢ StoreFault.TakenOver) }
{
    for state in states {
        let handler = state.handler();
        let key = handler_key(alloc, &keys.name, handler)?;
        let found = find(alloc, etcd, &key)?;
        let revision = revision_of(&found);
        let Ok(_) = revisions.insert(handler.0, revision) else {
            return Err(StoreFault::Etcd(EtcdError::OutOfMemory));
        };
    }
    Ok(())
}

// The states' keys stand at this revision.
fn note_revisions(revisions: &mut Revisions, states: &[HandlerState], revision: u64) {
    for state in states {
        let _ = revisions.insert(state.handler().0, revision);
    }
}

/// Stores the states in one transaction, which compares the token and the known revisions. If a comparison fails and the token
/// stands, the revisions are read anew, and the transaction is tried once more.
///
/// Refused: `TakenOver`, `Overtaken` if the second transaction fails too, and the errors of a call.
pub(crate) fn store_states<E: Etcd>(
    alloc: Global,
    etcd: &mut E,
    keys: &Keys,
    revisions: &mut Revisions,
    states: &[HandlerState],
) -> Result<(), StoreFault>
    ensures commits { E.is_honest etcd.new → OnOk result ((known : List (ℕ × ℕ)) × Commits (E.is_alone etcd.new) (E.contents etcd.old)
        (E.contents etcd.new) (keys_of keys.now) known states.now) }
    ensures stays { E.is_honest etcd.new → E.is_alone etcd.new → OnErr result (SameKeys (E.contents etcd.old) (E.contents etcd.new)) }
    ensures taken { E.is_honest etcd.new → result ≡ Err StoreFault.TakenOver → Owns (E.contents etcd.new) (keys_of keys.now) → ⊥ }
    ensures honest { E.is_honest etcd.new → E.is_honest etcd.old }
    ensures alone { E.is_alone etcd.new → E.is_alone etcd.old }
{
    if let Some(revision) = try_storing(alloc, etcd, keys, revisions, states)? {
        note_revisions(revisions, states, revision);
        return Ok(());
    }
    check_owner(alloc, etcd, keys)?;
    reread(alloc, etcd, keys, revisions, states)?;
    let Some(revision) = try_storing(alloc, etcd, keys, revisions, states)? else {
        check_owner(alloc, etcd, keys)?;
        return Err(StoreFault::Overtaken);
    };
    note_revisions(revisions, states, revision);
    Ok(())
}
