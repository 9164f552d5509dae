//! Lists of the states and incarnations under a store's name. Nothing is taken over.

use scoop_etcd::{Etcd, EtcdError, Owner, handler_key, state_of};
use scoop_etcd_calls::{Pair, Range};
use scoop_handler::HandlerState;
use scoop_keeper::KeeperError;
use scoop_lines::decimal_u32;
use scoop_message::{ClientId, HandlerId, OutOfMemory};
use std::alloc::Global;

// The keys under the name that begin with this text and a slash. No key goes on with a `0` there, the byte after a slash.
fn under(alloc: Global, name: &str, kind: &str) -> Result<Range, OutOfMemory> {
    let from = format!(in alloc; "{name}/{kind}/");
    let to = format!(in alloc; "{name}/{kind}0");
    match (from, to) {
        (Ok(from), Ok(to)) => Ok(Range {
            from: from.into_bytes(),
            to: Some(to.into_bytes()),
        }),
        _ => Err(OutOfMemory),
    }
}

// The number after the last slash of a key. `None` if there is none: then the key isn't one of a store.
fn last_number(key: &[u8]) -> Option<u32> {
    let at = key.iter().rposition(|byte| *byte == b'/')?;
    decimal_u32(&key[at + 1..])
}

// The handlers whose keys these are.
fn handlers_of(alloc: Global, pairs: &[Pair]) -> Result<Vec<HandlerId>, OutOfMemory> {
    let mut handlers = Vec::new(alloc);
    for pair in pairs {
        if let Some(number) = last_number(&pair.key) {
            handlers.push(HandlerId(number))?;
        }
    }
    Ok(handlers)
}

/// The handlers that have a state under this name, by ascending keys. Refused with the errors of a range.
pub fn handlers_in<E: Etcd>(
    alloc: Global,
    etcd: &mut E,
    name: &str,
) -> Result<Vec<HandlerId>, EtcdError> {
    let found = etcd.range(&under(alloc, name, "handlers")?)?;
    Ok(handlers_of(alloc, &found.pairs)?)
}

fn client_in(pair: &Pair) -> Option<(ClientId, u32)> {
    let number = last_number(&pair.key)?;
    let inc = decimal_u32(&pair.value)?;
    Some((ClientId(number), inc))
}

// The clients whose keys these are, with their incarnations.
fn clients_of(alloc: Global, pairs: &[Pair]) -> Result<Vec<(ClientId, u32)>, OutOfMemory> {
    let mut clients = Vec::new(alloc);
    for pair in pairs {
        if let Some(client) = client_in(pair) {
            clients.push(client)?;
        }
    }
    Ok(clients)
}

/// The clients that have an incarnation under this name, with it. Refused with the errors of a range.
pub fn clients_in<E: Etcd>(
    alloc: Global,
    etcd: &mut E,
    name: &str,
) -> Result<Vec<(ClientId, u32)>, EtcdError> {
    let found = etcd.range(&under(alloc, name, "clients")?)?;
    Ok(clients_of(alloc, &found.pairs)?)
}

// Adds the owners whose keys these are: nodes, or else clients.
fn add_owners(are_nodes: bool, pairs: &[Pair], owners: &mut Vec<Owner>) -> Result<(), OutOfMemory> {
    for pair in pairs {
        match last_number(&pair.key) {
            Some(number) if are_nodes => owners.push(Owner::Node(number))?,
            Some(number) => owners.push(Owner::Client(ClientId(number)))?,
            None => {}
        }
    }
    Ok(())
}

/// The parties that have a store of this name. Refused with the errors of a range.
pub fn owners_in<E: Etcd>(
    alloc: Global,
    etcd: &mut E,
    name: &str,
) -> Result<Vec<Owner>, EtcdError> {
    let mut owners = Vec::new(alloc);
    let nodes = etcd.range(&under(alloc, name, "owner/node")?)?;
    add_owners(true, &nodes.pairs, &mut owners)?;
    let clients = etcd.range(&under(alloc, name, "owner/client")?)?;
    add_owners(false, &clients.pairs, &mut owners)?;
    Ok(owners)
}

// The pair of a key, if there is one.
fn find<E: Etcd>(alloc: Global, etcd: &mut E, key: &[u8]) -> Result<Option<Pair>, EtcdError> {
    let Ok(from) = Vec::from_slice(alloc, key) else {
        return Err(EtcdError::OutOfMemory);
    };
    let found = etcd.range(&Range { from, to: None })?;
    let mut pairs = found.pairs;
    Ok(pairs.pop())
}

/// Whether these bytes stand under the key.
pub(crate) fn stands<E: Etcd>(
    alloc: Global,
    etcd: &mut E,
    key: &[u8],
    value: &[u8],
) -> Result<bool, EtcdError> {
    match find(alloc, etcd, key)? {
        Some(pair) => Ok(pair.value.as_slice() == value),
        None => Ok(false),
    }
}

/// Whether the handler has a state under this name. Refused with the errors of a range.
pub fn has_state<E: Etcd>(
    alloc: Global,
    etcd: &mut E,
    name: &str,
    handler: HandlerId,
) -> Result<bool, EtcdError> {
    let key = handler_key(alloc, name.as_bytes(), handler)?;
    Ok(find(alloc, etcd, &key)?.is_some())
}

// The keeper's error for one of the etcd.
fn unread(error: EtcdError) -> KeeperError {
    match error {
        EtcdError::OutOfMemory => KeeperError::OutOfMemory,
        _ => KeeperError::Refused,
    }
}

/// The handler's state under this name, `None` if there is none.
///
/// Refused: `BadImage` if what stands there is no state of it, `Refused` if the etcd didn't answer, and `OutOfMemory`.
pub fn state_under<E: Etcd>(
    alloc: Global,
    etcd: &mut E,
    name: &str,
    handler: HandlerId,
) -> Result<Option<HandlerState>, KeeperError> {
    let key = handler_key(alloc, name.as_bytes(), handler)?;
    match find(alloc, etcd, &key) {
        Ok(Some(pair)) => state_of(alloc, handler, Some(pair.value)),
        Ok(None) => Ok(None),
        Err(error) => Err(unread(error)),
    }
}
