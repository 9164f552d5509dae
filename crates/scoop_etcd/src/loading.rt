//! Reads of handlers' states.

ghost use Rattle.std.specs.Prelude.{◌≡◌, ◌⊎◌, IfOk, IfErr, IfSome, option_map};
ghost use Rattle.scoop_handler.specs.State.{HandlerState as State};
ghost use Rattle.scoop_keeper.specs.Keeper.{Damaged, IsPutError, IsTheOne, stored_of};
ghost use Rattle.scoop_etcd.specs.Etcd.{SameKeys};
ghost use Rattle.scoop_etcd.specs.Owning.{keys_of};
ghost use Rattle.scoop_etcd.specs.States.{Has, IsStateOf, state_value};
ghost use Rattle.scoop_record.specs.declared.images.error.ReadError.{ReadError};

use crate::committing::Revisions;
use crate::etcd::{Etcd, EtcdError};
use crate::finding::{find, revision_of};
use crate::keys::{Keys, handler_key};
use crate::packing::{FRONT_LEN, split_place};
use scoop_handler::HandlerState;
use scoop_keeper::KeeperError;
use scoop_message::HandlerId;
use scoop_record::{ReadError, read_image};
use std::alloc::Global;

/// The value under the handler's key, and its revision noted. Refused with the errors of a range.
pub(crate) fn find_value<E: Etcd>(
    alloc: Global,
    etcd: &mut E,
    keys: &Keys,
    revisions: &mut Revisions,
    handler: HandlerId,
) -> Result<Option<Vec<u8>>, EtcdError>
    ensures value { E.is_honest etcd.new → IfOk result
        (λ value. option_map (λ v. v.items) value ≡ state_value (keys_of keys.now).name (E.contents etcd.new) handler.0) }
    ensures stays { E.is_alone etcd.new → SameKeys (E.contents etcd.old) (E.contents etcd.new) }
    ensures honest { E.is_honest etcd.new → E.is_honest etcd.old }
    ensures alone { E.is_alone etcd.new → E.is_alone etcd.old }
{
    let key = handler_key(alloc, &keys.name, handler)?;
    let found = find(alloc, etcd, &key)?;
    let _ = revisions.insert(handler.0, revision_of(&found));
    match found {
        Some(pair) => Ok(Some(pair.value)),
        None => Ok(None),
    }
}

// The state of the handler that the value is of.
fn state_in(alloc: Global, handler: HandlerId, value: &[u8]) -> Result<HandlerState, ReadError>
    ensures ok { IfOk result (λ s. IsStateOf handler.0 value.now s) }
    ensures own { IfOk result (λ s. s.number ≡ handler) }
    ensures bad { result ≡ Err ReadError.BadImage → (s : State) → IsStateOf handler.0 value.now s → ⊥ }
{
    let Some(at) = split_place(value) else {
        return Err(ReadError::BadImage);
    };
    read_image(alloc, handler, &value[FRONT_LEN..at], &value[at..])
}

/// The handler's state in the value that was found.
///
/// Refused: `BadImage` if the value is no state's, and `OutOfMemory`.
pub fn state_of(
    alloc: Global,
    handler: HandlerId,
    value: Option<Vec<u8>>,
) -> Result<Option<HandlerState>, KeeperError>
    ensures loaded { IfOk result (λ found. IsTheOne (Has handler.0 (option_map (λ v. v.items) value)) (stored_of found)) }
    ensures own { IfOk result (λ found. IfSome found (λ s. s.number ≡ handler)) }
    ensures bad { result ≡ Err (KeeperError.BadImage handler) → IsTheOne (Has handler.0 (option_map (λ v. v.items) value)) Damaged }
    ensures named { IfErr result (λ e. IsPutError e ⊎ (e ≡ KeeperError.BadImage handler)) }
{
    let Some(value) = value else {
        return Ok(None);
    };
    match state_in(alloc, handler, &value) {
        Ok(state) => Ok(Some(state)),
        Err(ReadError::BadImage) => Err(KeeperError::BadImage(handler)),
        Err(ReadError::OutOfMemory) => Err(KeeperError::OutOfMemory),
    }
}
