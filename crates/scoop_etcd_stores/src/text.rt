//! The text beside a party's store: which party of which system it belongs to.

use scoop_etcd::{Etcd, EtcdError, Owner};
use scoop_etcd_calls::{Compare, Put, Range, Txn};
use scoop_message::OutOfMemory;
use std::alloc::Global;

// The key of the text.
fn text_key(alloc: Global, name: &str, owner: Owner) -> Result<Vec<u8>, OutOfMemory> {
    let key = match owner {
        Owner::Node(number) => format!(in alloc; "{name}/system/node/{number}"),
        Owner::Client(client) => format!(in alloc; "{name}/system/client/{client}"),
    };
    match key {
        Ok(key) => Ok(key.into_bytes()),
        Err(_) => Err(OutOfMemory),
    }
}

/// The text beside the store of this owner, `None` if there is none. `BadAnswer` if it isn't text; else refused with the errors
/// of a range.
pub fn read_text<E: Etcd>(
    alloc: Global,
    etcd: &mut E,
    name: &str,
    owner: Owner,
) -> Result<Option<String>, EtcdError> {
    let from = text_key(alloc, name, owner)?;
    let found = etcd.range(&Range { from, to: None })?;
    let mut pairs = found.pairs;
    let Some(pair) = pairs.pop() else {
        return Ok(None);
    };
    match String::from_utf8(pair.value) {
        Ok(text) => Ok(Some(text)),
        Err(_) => Err(EtcdError::BadAnswer),
    }
}

// Puts the text under the key if nothing stands there.
fn putting(alloc: Global, key: Vec<u8>, text: &str) -> Result<Txn, OutOfMemory> {
    let compared = Vec::from_slice(alloc, &key)?;
    let value = Vec::from_slice(alloc, text.as_bytes())?;
    let compares = vec![in alloc; Compare::Revision(compared, 0)]?;
    let puts = vec![in alloc; Put { key, value }]?;
    Ok(Txn { compares, puts })
}

/// Puts the text beside the store of this owner if there is none. Returns whether it was put. Refused with the errors of a
/// transaction.
pub fn put_text<E: Etcd>(
    alloc: Global,
    etcd: &mut E,
    name: &str,
    owner: Owner,
    text: &str,
) -> Result<bool, EtcdError> {
    let key = text_key(alloc, name, owner)?;
    let txn = putting(alloc, key, text)?;
    let outcome = etcd.transact(&txn)?;
    Ok(outcome.succeeded)
}
