//! The calls to an etcd, and its answers.

/// A key, the bytes stored under it, and the store's revision when they were put.
#[derive(Drop)]
pub struct Pair {
    /// The key.
    pub key: Vec<u8>,
    /// The bytes stored under it.
    pub value: Vec<u8>,
    /// The store's revision just after the put, from 1 on.
    pub revision: u64,
}

/// Asks for one key, or for the keys from `from` up to, and not with, `to`.
#[derive(Drop)]
pub struct Range {
    /// The key, or the least one.
    pub from: Vec<u8>,
    /// The first key that isn't asked for. `None` asks for `from` alone.
    pub to: Option<Vec<u8>>,
}

/// The answer to a range: the pairs found, by ascending keys.
#[derive(Drop)]
pub struct Found {
    /// The store's revision.
    pub revision: u64,
    /// The pairs.
    pub pairs: Vec<Pair>,
}

/// A condition of a transaction.
#[derive(Drop)]
pub enum Compare {
    /// These bytes are stored under the key.
    Value(Vec<u8>, Vec<u8>),
    /// The key was last put at this revision, or is absent if this is 0.
    Revision(Vec<u8>, u64),
}

/// Bytes to store under a key.
#[derive(Drop)]
pub struct Put {
    /// The key.
    pub key: Vec<u8>,
    /// The bytes stored under it.
    pub value: Vec<u8>,
}

/// If all comparisons hold, all puts are made in one step. Otherwise nothing is.
#[derive(Drop)]
pub struct Txn {
    /// The conditions.
    pub compares: Vec<Compare>,
    /// The puts, made if all conditions hold.
    pub puts: Vec<Put>,
}

/// The answer to a transaction.
#[derive(Clone, Copy, Debug, PartialEq, Eq)]
pub struct Outcome {
    /// Whether all comparisons held.
    pub succeeded: bool,
    /// The store's revision after the transaction. It is that of each key that was put.
    pub revision: u64,
}

/// Why an etcd refused a call.
#[derive(Drop)]
pub struct Refusal {
    /// The code of gRPC: 8 if the store has no room left, 14 if it has no leader, 0 if none was given.
    pub code: u64,
    /// The reason in words.
    pub message: String,
}
