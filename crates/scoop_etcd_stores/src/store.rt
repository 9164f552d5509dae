//! Stores of parties in an etcd: made and taken over.

use crate::error::EtcdFault;
use crate::listing::stands;
use itoa::Buffer;
use scoop_etcd::{Etcd, EtcdStore, Owner, client_key, owner_key};
use scoop_etcd_calls::{Compare, Put, Txn};
use scoop_etcd_gateway::{Gateway, Unknown};
use scoop_etcd_place::EtcdPlace;
use scoop_message::{ClientId, OutOfMemory};
use std::alloc::Global;
use std::random::RandomSource;

/// An etcd of this machine's network.
pub type SharedEtcd<'a> = Gateway<'a, HostRuntime, Unknown>;

/// A party's store there.
pub type SharedStore<'a> = EtcdStore<SharedEtcd<'a>>;

// The members, each as `HOST:PORT`, in a text with commas between them.
fn member_names(alloc: Global, members: &str) -> Result<Vec<String>, OutOfMemory> {
    let mut names = Vec::new(alloc);
    for member in members.split(',') {
        let Ok(name) = String::from_str(alloc, member) else {
            return Err(OutOfMemory);
        };
        names.push(name)?;
    }
    Ok(names)
}

/// The etcd of this place. Nothing is sent yet.
pub fn connect<'a>(
    rt: &'a HostRuntime,
    place: &EtcdPlace<'_>,
) -> Result<SharedEtcd<'a>, EtcdFault> {
    let members = member_names(rt.alloc(), place.members)?;
    match Gateway::new(rt, rt.alloc(), members, Unknown) {
        Ok(etcd) => Ok(etcd),
        // A place has as many members as a gateway takes.
        Err(_) => Err(EtcdFault::Refused),
    }
}

// A token that no other program has.
fn fresh_token(rt: &HostRuntime) -> Result<[u8; 16], EtcdFault> {
    let mut token = [0; 16];
    match rt.fill_bytes(&mut token) {
        Ok(()) => Ok(token),
        Err(_) => Err(EtcdFault::NoToken),
    }
}

/// Makes this party's store at the place. `Exists` if it has one there.
pub fn create<'a>(
    rt: &'a HostRuntime,
    place: &EtcdPlace<'_>,
    owner: Owner,
) -> Result<SharedStore<'a>, EtcdFault> {
    let token = fresh_token(rt)?;
    let etcd = connect(rt, place)?;
    match EtcdStore::create(rt.alloc(), etcd, place.name, owner, token) {
        Ok(store) => Ok(store),
        Err(error) => Err(EtcdFault::from(error)),
    }
}

/// Takes over the store of this party at the place. `NoStore` if it has none there.
pub fn adopt<'a>(
    rt: &'a HostRuntime,
    place: &EtcdPlace<'_>,
    owner: Owner,
) -> Result<SharedStore<'a>, EtcdFault> {
    let token = fresh_token(rt)?;
    let etcd = connect(rt, place)?;
    match EtcdStore::open(rt.alloc(), etcd, place.name, owner, token) {
        Ok(store) => Ok(store),
        Err(error) => Err(EtcdFault::from(error)),
    }
}

/// Makes this client's store at the place, in which `last` is its incarnation. So the next one is one more. `Exists` if
/// it has a store there, or another incarnation. The incarnation is put first: a program that is killed in between
/// leaves no store, and may be run again.
pub fn create_after<'a>(
    rt: &'a HostRuntime,
    place: &EtcdPlace<'_>,
    client: ClientId,
    last: u32,
) -> Result<SharedStore<'a>, EtcdFault> {
    let mut etcd = connect(rt, place)?;
    begin_after(rt.alloc(), &mut etcd, place.name.as_bytes(), client, last)?;
    create(rt, place, Owner::Client(client))
}

// Puts the incarnation of a client that has no store, unless it is there already.
fn begin_after<E: Etcd>(
    alloc: Global,
    etcd: &mut E,
    name: &[u8],
    client: ClientId,
    last: u32,
) -> Result<(), EtcdFault> {
    let key = client_key(alloc, name, client)?;
    let mut digits = Buffer::new();
    let digits = digits.format(last).as_bytes();
    if stands(alloc, etcd, &key, digits)? {
        return Ok(());
    }
    let txn = beginning(alloc, name, client, key, digits)?;
    if etcd.transact(&txn)?.succeeded {
        Ok(())
    } else {
        Err(EtcdFault::Exists)
    }
}

// Puts the value under the key if nothing stands there, and the client has no store.
fn beginning(
    alloc: Global,
    name: &[u8],
    client: ClientId,
    key: Vec<u8>,
    value: &[u8],
) -> Result<Txn, OutOfMemory> {
    let owner = owner_key(alloc, name, Owner::Client(client))?;
    let compared = Vec::from_slice(alloc, &key)?;
    let value = Vec::from_slice(alloc, value)?;
    let compares = vec![in alloc; Compare::Revision(compared, 0), Compare::Revision(owner, 0)]?;
    let puts = vec![in alloc; Put { key, value }]?;
    Ok(Txn { compares, puts })
}
