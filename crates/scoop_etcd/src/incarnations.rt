//! The incarnations of clients in an etcd.

ghost use Rattle.std.specs.Prelude.{◌≡◌, ◌∷◌, ◌<◌, ◌^◌, [], IfOk, OnErr, IfSome, Some, None, option_map};
ghost use Rattle.std.specs.Option.{option_map_or};
ghost use Rattle.std.specs.Fmt.{decimal};
ghost use Rattle.scoop_keeper.specs.Keeper.{last_incarnation};
ghost use Rattle.scoop_etcd.specs.Etcd.{HasRevision, HasValue, SameKeys, conditions_of, entries_of, kept_of};
ghost use Rattle.scoop_etcd.specs.Incarnation.{Advances, inc_of, incs_in};
ghost use Rattle.scoop_etcd.specs.Owning.{Owns, keys_of};
ghost use Rattle.scoop_etcd.specs.declared.fault.StoreFault.{StoreFault};

use crate::etcd::Etcd;
use crate::fault::StoreFault;
use crate::finding::{find, revision_of};
use crate::keys::{Keys, client_key};
use crate::owning::check_owner;
use itoa::Buffer;
use scoop_etcd_calls::{Compare, Pair, Put, Txn};
use scoop_lines::decimal_u32;
use scoop_message::{ClientId, OutOfMemory};
use std::alloc::Global;

// The incarnation that a value writes, the last one if it writes none.
fn inc_of(value: &[u8]) -> u32
    ensures { result ≡ inc_of value.now }
{
    decimal_u32(value).unwrap_or(u32::MAX)
}

// Puts the incarnation if the token stands and the client's key is at this revision, or absent at 0.
fn raising(
    alloc: Global,
    keys: &Keys,
    key: Vec<u8>,
    revision: u64,
    inc: u32,
) -> Result<Txn, OutOfMemory>
    ensures conditions { IfOk result (λ txn. conditions_of txn
        ≡ HasValue (keys_of keys.now).owner (keys_of keys.now).token ∷ HasRevision key.items revision ∷ []) }
    ensures entries { IfOk result (λ txn. entries_of txn ≡ (key.items, decimal inc) ∷ []) }
{
    let owner = Vec::from_slice(alloc, &keys.owner)?;
    let token = Vec::from_slice(alloc, &keys.token)?;
    let compared = Vec::from_slice(alloc, &key)?;
    let mut digits = Buffer::new();
    let value = Vec::from_slice(alloc, digits.format(inc).as_bytes())?;
    let token_stands = Compare::Value(owner, token);
    let key_stands = Compare::Revision(compared, revision);
    let compares = vec![in alloc; token_stands, key_stands]?;
    let puts = vec![in alloc; Put { key, value }]?;
    Ok(Txn { compares, puts })
}

// The incarnation that was found, 0 if nothing was.
fn last_inc(found: &Option<Pair>) -> u32
    ensures { result ≡ option_map_or (λ pair. inc_of pair.value.items) found.now 0 }
{
    match found {
        Some(pair) => inc_of(&pair.value),
        None => 0,
    }
}

/// Stores the client's next incarnation, in one transaction that compares the token and the revision of what was read.
/// Returns `None` if the stored one is the last.
///
/// Refused with nothing changed: `TakenOver`, `Overtaken`, and the errors of a call.
pub(crate) fn advance<E: Etcd>(
    alloc: Global,
    etcd: &mut E,
    keys: &Keys,
    client: ClientId,
) -> Result<Option<u32>, StoreFault>
    ensures advances { E.is_honest etcd.new → IfOk result (λ next. IfSome next
        (Advances (E.is_alone etcd.new) (E.contents etcd.old) (E.contents etcd.new) (keys_of keys.now) client.0)) }
    ensures fits { IfOk result (λ next. IfSome next (λ inc. inc < 2 ^ 32)) }
    ensures spent { E.is_honest etcd.new → E.is_alone etcd.new → result ≡ Ok None
        → incs_in (keys_of keys.now).name (E.contents etcd.old) client.0 ≡ Some last_incarnation }
    ensures idle { E.is_alone etcd.new → result ≡ Ok None → SameKeys (E.contents etcd.old) (E.contents etcd.new) }
    ensures stays { E.is_honest etcd.new → E.is_alone etcd.new → OnErr result (SameKeys (E.contents etcd.old) (E.contents etcd.new)) }
    ensures taken { E.is_honest etcd.new → result ≡ Err StoreFault.TakenOver → Owns (E.contents etcd.new) (keys_of keys.now) → ⊥ }
    ensures honest { E.is_honest etcd.new → E.is_honest etcd.old }
    ensures alone { E.is_alone etcd.new → E.is_alone etcd.old }
{
    let key = client_key(alloc, &keys.name, client)?;
    let found = find(alloc, etcd, &key)?;
    let Some(next) = last_inc(&found).checked_add(1) else {
        return Ok(None);
    };
    let txn = raising(alloc, keys, key, revision_of(&found), next)?;
    let outcome = etcd.transact(&txn)?;
    if outcome.succeeded {
        return Ok(Some(next));
    }
    check_owner(alloc, etcd, keys)?;
    Err(StoreFault::Overtaken)
}
