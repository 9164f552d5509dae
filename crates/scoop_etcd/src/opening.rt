//! The making and the taking over of a store.

ghost use Rattle.std.specs.Prelude.{◌≡◌, ◌⊎◌, IfOk, IfErr, OnOk, IsTrue, IsFalse, IsSome, None};
ghost use Rattle.scoop_etcd.specs.Keys.{is_name};
ghost use Rattle.scoop_etcd.specs.Owning.{Replaces, Takes, keys_of, keys_under};
ghost use Rattle.scoop_etcd.specs.declared.opening.OpenError.{OpenError};
ghost use Rattle.scoop_etcd.specs.declared.etcd.EtcdError.{EtcdError};

use crate::etcd::{Etcd, EtcdError};
use crate::finding::find;
use crate::keys::{Keys, Owner, is_store_name};
use crate::owning::take;
use scoop_message::OutOfMemory;
use std::alloc::Global;
use thiserror::Error;

/// Why a store isn't made or taken over.
#[derive(Clone, Copy, Debug, PartialEq, Eq, Error)]
pub enum OpenError {
    /// The name isn't one of a store.
    #[error("a store's name has 1 to 64 letters, digits, `-`, `_` and `.`")]
    BadName,
    /// The owner has a store of this name already.
    #[error("there is a store of this name already")]
    Exists,
    /// The owner has no store of this name.
    #[error("there is no store of this name")]
    NoStore,
    /// Another program took the store over at the same time.
    #[error("another program opened the store at the same time")]
    Raced,
    /// The etcd did not answer.
    #[error("{0}")]
    Etcd(EtcdError),
}

impl From<EtcdError> for OpenError {
    ghost use Rattle.scoop_etcd.specs.declared.opening.OpenError.TheVariants as variants;

    ghost from_gives = { λ error e. e ≡ variants.Etcd error };

    fn from(error: EtcdError) -> OpenError {
        OpenError::Etcd(error)
    }
}

impl From<OutOfMemory> for OpenError {
    ghost use Rattle.scoop_etcd.specs.declared.etcd.EtcdError.TheVariants as errors;
    ghost use Rattle.scoop_etcd.specs.declared.opening.OpenError.TheVariants as variants;

    ghost from_gives = { λ _ e. e ≡ variants.Etcd errors.OutOfMemory };

    fn from(_: OutOfMemory) -> OpenError {
        OpenError::Etcd(EtcdError::OutOfMemory)
    }
}

// The keys of the owner's store of this name.
fn keys_for(alloc: Global, name: &str, owner: Owner, token: [u8; 16]) -> Result<Keys, OpenError>
    ensures named { OnOk result (IsTrue (is_name name.now)) }
    ensures bad_name { IsFalse (is_name name.now) → result ≡ Err OpenError.BadName }
    ensures keys { IfOk result (λ keys. keys_of keys ≡ keys_under name.now owner token) }
    ensures refused { IfErr result (λ e. (e ≡ OpenError.BadName) ⊎ (e ≡ OpenError.Etcd EtcdError.OutOfMemory)) }
{
    if !is_store_name(name) {
        return Err(OpenError::BadName);
    }
    Ok(Keys::new(alloc, name.as_bytes(), owner, token)?)
}

/// Makes the owner's store of this name: puts the token under the owner's key, where nothing may stand.
///
/// Refused: `BadName`, `Exists`, and the errors of a call.
pub(crate) fn create_record<E: Etcd>(
    alloc: Global,
    etcd: &mut E,
    name: &str,
    owner: Owner,
    token: [u8; 16],
) -> Result<Keys, OpenError>
    ensures named { OnOk result (IsTrue (is_name name.now)) }
    ensures bad_name { IsFalse (is_name name.now) → result ≡ Err OpenError.BadName }
    ensures keys { IfOk result (λ keys. keys_of keys ≡ keys_under name.now owner token) }
    ensures made { E.is_honest etcd.new → IfOk result
        (λ keys. Takes (E.is_alone etcd.new) (E.contents etcd.old) (E.contents etcd.new) (keys_of keys) 0) }
    ensures honest { E.is_honest etcd.new → E.is_honest etcd.old }
    ensures alone { E.is_alone etcd.new → E.is_alone etcd.old }
{
    let keys = keys_for(alloc, name, owner, token)?;
    let found = find(alloc, etcd, &keys.owner)?;
    if found.is_some() || !take(alloc, etcd, &keys, 0)? {
        return Err(OpenError::Exists);
    }
    Ok(keys)
}

/// Takes the owner's store of this name over: puts the token under the owner's key in place of what stands there.
///
/// Refused: `BadName`, `NoStore` if nothing stands there, `Raced` if it changes meanwhile, and the errors of a call.
pub(crate) fn open_record<E: Etcd>(
    alloc: Global,
    etcd: &mut E,
    name: &str,
    owner: Owner,
    token: [u8; 16],
) -> Result<Keys, OpenError>
    ensures named { OnOk result (IsTrue (is_name name.now)) }
    ensures bad_name { IsFalse (is_name name.now) → result ≡ Err OpenError.BadName }
    ensures keys { IfOk result (λ keys. keys_of keys ≡ keys_under name.now owner token) }
    ensures taken { E.is_honest etcd.new → IfOk result
        (λ keys. Replaces (E.is_alone etcd.new) (E.contents etcd.old) (E.contents etcd.new) (keys_of keys)) }
    ensures found { E.is_honest etcd.new → E.is_alone etcd.new → IfOk result (λ keys. IsSome ((E.contents etcd.old).under (keys_of keys).owner)) }
    ensures missing { E.is_honest etcd.new → E.is_alone etcd.new → result ≡ Err OpenError.NoStore
        → (E.contents etcd.old).under (keys_under name.now owner token).owner ≡ None }
    ensures honest { E.is_honest etcd.new → E.is_honest etcd.old }
    ensures alone { E.is_alone etcd.new → E.is_alone etcd.old }
{
    let keys = keys_for(alloc, name, owner, token)?;
    let Some(pair) = find(alloc, etcd, &keys.owner)? else {
        return Err(OpenError::NoStore);
    };
    if !take(alloc, etcd, &keys, pair.revision)? {
        return Err(OpenError::Raced);
    }
    Ok(keys)
}
