//! The stores of a system's parties, in files and in an etcd.

use crate::going_on::least_incarnation;
use scoop_command_line::StoreChoice;
use scoop_etcd::Owner;
use scoop_etcd_place::EtcdPlace;
use scoop_etcd_stores::{EtcdFault, SharedEtcd, SharedStore, connect, has_state};
use scoop_files::{FileError, FiledStore, adopt, adopt_since, create, create_after};
use scoop_message::{ClientId, HandlerId};
use scoop_system::System;

/// The store of a node by this choice. `NoFile` if it is no store; the other errors are the file's.
pub(crate) fn open_node_store(
    rt: &HostRuntime,
    choice: StoreChoice<'_>,
) -> Result<FiledStore, FileError> {
    match choice {
        StoreChoice::New(path) => create(rt, path),
        StoreChoice::Old(path) => adopt(rt, path),
        StoreChoice::None => Err(FileError::NoFile),
    }
}

/// The same for this client. A new store begins above the incarnation `after`, if there is one. `OlderClient` if an old one is
/// older than the text beside it says.
pub(crate) fn open_client_store(
    rt: &HostRuntime,
    choice: StoreChoice<'_>,
    after: Option<u32>,
    client: ClientId,
) -> Result<FiledStore, FileError> {
    match choice {
        StoreChoice::New(path) => match after {
            Some(last) => create_after(rt, path, client, last),
            None => create(rt, path),
        },
        StoreChoice::Old(path) => adopt_since(rt, path, client, least_incarnation(rt, path)?),
        StoreChoice::None => Err(FileError::NoFile),
    }
}

/// The store of a node of this system by a choice that names this place in an etcd. An old one is taken over. `Exists` if a new
/// node has a handler that has a state there.
pub(crate) fn open_shared_node<'a>(
    rt: &'a HostRuntime,
    choice: StoreChoice<'_>,
    place: &EtcdPlace<'_>,
    system: &System,
    number: u32,
) -> Result<SharedStore<'a>, EtcdFault> {
    let owner = Owner::Node(number);
    if let StoreChoice::New(_) = choice {
        require_unused(rt, place, system, number)?;
        return scoop_etcd_stores::create(rt, place, owner);
    }
    scoop_etcd_stores::adopt(rt, place, owner)
}

/// The same for this client. A new store begins above the incarnation `after`, if there is one.
pub(crate) fn open_shared_client<'a>(
    rt: &'a HostRuntime,
    choice: StoreChoice<'_>,
    place: &EtcdPlace<'_>,
    after: Option<u32>,
    client: ClientId,
) -> Result<SharedStore<'a>, EtcdFault> {
    let owner = Owner::Client(client);
    match (choice, after) {
        (StoreChoice::New(_), Some(last)) => {
            scoop_etcd_stores::create_after(rt, place, client, last)
        }
        (StoreChoice::New(_), None) => scoop_etcd_stores::create(rt, place, owner),
        _ => scoop_etcd_stores::adopt(rt, place, owner),
    }
}

// Refuses a place where a handler of the node has a state.
fn require_unused(
    rt: &HostRuntime,
    place: &EtcdPlace<'_>,
    system: &System,
    number: u32,
) -> Result<(), EtcdFault> {
    let mut etcd = connect(rt, place)?;
    for handler in system.handlers() {
        if handler.node == number {
            require_no_state(rt, &mut etcd, place, handler.handler)?;
        }
    }
    Ok(())
}

/// Refuses a place where the handler has a state, by `Exists`.
pub(crate) fn require_no_state(
    rt: &HostRuntime,
    etcd: &mut SharedEtcd<'_>,
    place: &EtcdPlace<'_>,
    handler: HandlerId,
) -> Result<(), EtcdFault> {
    match has_state(rt.alloc(), etcd, place.name, handler) {
        Ok(false) => Ok(()),
        Ok(true) => Err(EtcdFault::Exists),
        Err(error) => Err(EtcdFault::from(error)),
    }
}
