//! The rows of the handlers.

ghost use Rattle.std.specs.Prelude.{◌≡◌, ◌≢◌, ◌≤◌, length, [], ◌∷◌, map, IfSome, IfOk, IfErr, IsTrue, OnOk, OnErr, false, true, Option, Some, option_map, ◌⊎◌};
ghost use Rattle.std.specs.Option.{option_to_list};
ghost use Rattle.sqlite.specs.Effect.{Database};
ghost use Rattle.sqlite.specs.Held.{state};
ghost use Rattle.sqlite.specs.State.{HasCleanDisk, IsUnchanged, KeepsCommit, Shows, Survives};
ghost use Rattle.sqlite.specs.declared.types.Value.{Value as SqlValue};
ghost use Rattle.sqlite.specs.declared.types.Value.TheVariants.{Blob};
ghost use Rattle.scoop_record.specs.Tables.{value_at};
ghost use Rattle.scoop_record.specs.Among.{PutsAmong, handlers_tree, pending_tree};
ghost use Rattle.scoop_record.specs.Store.{IsRecord, IsSound, IsReady, IsOpenOnOk, IsInsideAfter, Has, handlers_in, PutsBoth, Saves, SavesAll};
ghost use Rattle.scoop_handler.specs.State.{IsState};
ghost use Rattle.scoop_record.specs.Range.{InRange};
ghost use Rattle.scoop_keeper.specs.Keeper.{IsPutError, IsTheOne, stored_of, Damaged};
ghost use Rattle.scoop_record.specs.Reading.{IsStored};

use crate::images::{ReadError, image, pending_row, read_image};
use crate::refusal::refusal;
use scoop_handler::HandlerState;
use scoop_keeper::KeeperError;
use scoop_message::{HandlerId, OutOfMemory};
use sqlite::{Alter, Connection, Error, Row, Transaction, params};
use sqlite_value::value::ValueRef;
use std::alloc::Global;

/// The rows with the handler's image: none or one.
fn rows_of_handler<S: Alter>(tx: &mut Transaction<'_, S>, handler: u32) -> Result<Vec<Row>, Error>
    requires { IsSound (state S.Store tx.old.conn.now) → IsRecord (state S.Store tx.old.conn.now).now }
    ensures same_reference { tx.new.conn.ghost_name ≡ tx.old.conn.ghost_name }
    ensures rows { HasCleanDisk (state S.Store tx.new.conn.now)
        → IfOk result (λ rows. IsUnchanged (state S.Store tx.old.conn.now) (state S.Store tx.new.conn.now)
        × (length rows.items ≤ 1 → rows.items ≡ map (λ v. v ∷ []) (option_to_list
        (value_at ((state S.Store tx.old.conn.now).now.trees (handlers_tree (state S.Store tx.old.conn.now).now.schema)) handler)))) }
    ensures kept { HasCleanDisk (state S.Store tx.new.conn.now) → KeepsCommit (state S.Store tx.old.conn.now) (state S.Store tx.new.conn.now) }
    ensures survives { Survives (state S.Store tx.old.conn.now) (state S.Store tx.new.conn.now) (λ _. ⊥) }
{
    tx.query_all("SELECT image FROM handlers WHERE h = ?1", params![handler])
}

/// The rows with the handler's pending entries: none or one.
fn rows_of_pending<S: Alter>(tx: &mut Transaction<'_, S>, handler: u32) -> Result<Vec<Row>, Error>
    requires { IsSound (state S.Store tx.old.conn.now) → IsRecord (state S.Store tx.old.conn.now).now }
    ensures same_reference { tx.new.conn.ghost_name ≡ tx.old.conn.ghost_name }
    ensures rows { HasCleanDisk (state S.Store tx.new.conn.now)
        → IfOk result (λ rows. IsUnchanged (state S.Store tx.old.conn.now) (state S.Store tx.new.conn.now)
        × (length rows.items ≤ 1 → rows.items ≡ map (λ v. v ∷ []) (option_to_list
        (value_at ((state S.Store tx.old.conn.now).now.trees (pending_tree (state S.Store tx.old.conn.now).now.schema)) handler)))) }
    ensures kept { HasCleanDisk (state S.Store tx.new.conn.now) → KeepsCommit (state S.Store tx.old.conn.now) (state S.Store tx.new.conn.now) }
    ensures survives { Survives (state S.Store tx.old.conn.now) (state S.Store tx.new.conn.now) (λ _. ⊥) }
{
    tx.query_all("SELECT entries FROM pending WHERE h = ?1", params![handler])
}

/// Writes the handler's image, in the transaction.
fn put_image<S: Alter>(
    tx: &mut Transaction<'_, S>,
    handler: u32,
    image: &[u8],
) -> Result<usize, Error>
    requires { IsSound (state S.Store tx.old.conn.now) → IsRecord (state S.Store tx.old.conn.now).now }
    ensures same_reference { tx.new.conn.ghost_name ≡ tx.old.conn.ghost_name }
    ensures put { HasCleanDisk (state S.Store tx.new.conn.now)
        → OnOk result (PutsAmong (state S.Store tx.old.conn.now).now (state S.Store tx.new.conn.now).now
        (handlers_tree (state S.Store tx.old.conn.now).now.schema) handler (Blob image.now)
        × Shows (state S.Store tx.old.conn.now) (state S.Store tx.new.conn.now) (state S.Store tx.new.conn.now).now
        (state S.Store tx.old.conn.now).committed true) }
    ensures kept { HasCleanDisk (state S.Store tx.new.conn.now) → KeepsCommit (state S.Store tx.old.conn.now) (state S.Store tx.new.conn.now) }
    ensures survives { Survives (state S.Store tx.old.conn.now) (state S.Store tx.new.conn.now) (λ _. ⊥) }
{
    tx.execute(
        "INSERT INTO handlers (h, image) VALUES (?1, ?2) ON CONFLICT (h) DO UPDATE SET image = excluded.image",
        params![handler, image],
    )
}

/// Writes the handler's pending entries, in the transaction.
fn put_entries<S: Alter>(
    tx: &mut Transaction<'_, S>,
    handler: u32,
    entries: &[u8],
) -> Result<usize, Error>
    requires { IsSound (state S.Store tx.old.conn.now) → IsRecord (state S.Store tx.old.conn.now).now }
    ensures same_reference { tx.new.conn.ghost_name ≡ tx.old.conn.ghost_name }
    ensures put { HasCleanDisk (state S.Store tx.new.conn.now)
        → OnOk result (PutsAmong (state S.Store tx.old.conn.now).now (state S.Store tx.new.conn.now).now
        (pending_tree (state S.Store tx.old.conn.now).now.schema) handler (Blob entries.now)
        × Shows (state S.Store tx.old.conn.now) (state S.Store tx.new.conn.now) (state S.Store tx.new.conn.now).now
        (state S.Store tx.old.conn.now).committed true) }
    ensures kept { HasCleanDisk (state S.Store tx.new.conn.now) → KeepsCommit (state S.Store tx.old.conn.now) (state S.Store tx.new.conn.now) }
    ensures survives { Survives (state S.Store tx.old.conn.now) (state S.Store tx.new.conn.now) (λ _. ⊥) }
{
    tx.execute(
        "INSERT INTO pending (h, entries) VALUES (?1, ?2) ON CONFLICT (h) DO UPDATE SET entries = excluded.entries",
        params![handler, entries],
    )
}

/// Whether the handler's row of pending entries has these bytes. Most messages leave the entries as they are.
fn has_entries<S: Alter>(
    tx: &mut Transaction<'_, S>,
    handler: u32,
    entries: &[u8],
) -> Result<bool, Error>
    requires { IsSound (state S.Store tx.old.conn.now) → IsRecord (state S.Store tx.old.conn.now).now }
    ensures same_reference { tx.new.conn.ghost_name ≡ tx.old.conn.ghost_name }
    ensures same { HasCleanDisk (state S.Store tx.new.conn.now) → OnOk result (IsUnchanged (state S.Store tx.old.conn.now) (state S.Store tx.new.conn.now)) }
    ensures has { HasCleanDisk (state S.Store tx.new.conn.now)
        → IfOk result (λ has. IsTrue has
        → value_at ((state S.Store tx.old.conn.now).now.trees (pending_tree (state S.Store tx.old.conn.now).now.schema)) handler ≡ Some (Blob entries.now)) }
    ensures kept { HasCleanDisk (state S.Store tx.new.conn.now) → KeepsCommit (state S.Store tx.old.conn.now) (state S.Store tx.new.conn.now) }
    ensures survives { Survives (state S.Store tx.old.conn.now) (state S.Store tx.new.conn.now) (λ _. ⊥) }
{
    let rows = rows_of_pending(tx, handler)?;
    let [row] = rows.as_slice() else {
        return Ok(false);
    };
    match row.get_ref(0) {
        Ok(ValueRef::Blob(bytes)) => Ok(bytes == entries),
        _ => Ok(false),
    }
}

/// The bytes in the row, if there is one.
fn bytes_of(rows: &[Row]) -> Result<Option<Vec<u8>>, KeeperError>
    ensures bytes { (stored : Option SqlValue) → (length rows.now ≤ 1 → rows.now ≡ map (λ v. v ∷ []) (option_to_list stored))
        → IfOk result (λ found. stored ≡ option_map (λ b. Blob b.items) found) }
    ensures named { IfErr result IsPutError }
{
    let row = match rows {
        [] => return Ok(None),
        [row] => row,
        _ => return Err(KeeperError::Refused),
    };
    match row.get(0) {
        Ok(bytes) => Ok(Some(bytes)),
        Err(error) => Err(refusal(error)),
    }
}

/// The state of the image and the entries, if there is an image.
fn state_of(
    alloc: Global,
    handler: HandlerId,
    image: Option<Vec<u8>>,
    entries: Option<Vec<u8>>,
) -> Result<Option<HandlerState>, KeeperError>
    ensures loaded { IfOk result
        (λ found. IsTheOne (Has handler.0 (option_map (λ b. Blob b.items) image) (option_map (λ b. Blob b.items) entries)) (stored_of found)) }
    ensures own { IfOk result (λ found. IfSome found (λ s. s.number ≡ handler)) }
    ensures bad { result ≡ Err (KeeperError.BadImage handler)
        → IsTheOne (Has handler.0 (option_map (λ b. Blob b.items) image) (option_map (λ b. Blob b.items) entries)) Damaged }
    ensures named { IfErr result (λ e. IsPutError e ⊎ (e ≡ KeeperError.BadImage handler)) }
{
    let Some(image) = image else {
        return Ok(None);
    };
    let Some(entries) = entries else {
        return Err(KeeperError::BadImage(handler));
    };
    match read_image(alloc, handler, image.as_slice(), entries.as_slice()) {
        Ok(state) => Ok(Some(state)),
        Err(ReadError::BadImage) => Err(KeeperError::BadImage(handler)),
        Err(ReadError::OutOfMemory) => Err(KeeperError::OutOfMemory),
    }
}

/// Stores the image and the entries, in the transaction. Entries that stand there already aren't written again: a row that is
/// written costs a page of the log.
fn put_both<S: Alter>(
    tx: &mut Transaction<'_, S>,
    handler: u32,
    image: &[u8],
    entries: &[u8],
) -> Result<(), KeeperError>
    requires { IsSound (state S.Store tx.old.conn.now) → IsRecord (state S.Store tx.old.conn.now).now }
    ensures same_reference { tx.new.conn.ghost_name ≡ tx.old.conn.ghost_name }
    ensures put { HasCleanDisk (state S.Store tx.new.conn.now)
        → OnOk result (PutsBoth (state S.Store tx.old.conn.now).now (state S.Store tx.new.conn.now).now handler image.now entries.now
        × Shows (state S.Store tx.old.conn.now) (state S.Store tx.new.conn.now) (state S.Store tx.new.conn.now).now
        (state S.Store tx.old.conn.now).committed true) }
    ensures kept { HasCleanDisk (state S.Store tx.new.conn.now) → KeepsCommit (state S.Store tx.old.conn.now) (state S.Store tx.new.conn.now) }
    ensures named { IfErr result IsPutError }
    ensures survives { Survives (state S.Store tx.old.conn.now) (state S.Store tx.new.conn.now) (λ _. ⊥) }
{
    if let Err(error) = put_image(tx, handler, image) {
        return Err(refusal(error));
    }
    match has_entries(tx, handler, entries) {
        Ok(true) => return Ok(()),
        Ok(false) => {}
        Err(error) => return Err(refusal(error)),
    }
    match put_entries(tx, handler, entries) {
        Ok(_) => Ok(()),
        Err(error) => Err(refusal(error)),
    }
}

/// Stores and commits the image and the entries.
pub(crate) fn write_state<S: Alter>(
    conn: &mut Connection<S>,
    handler: u32,
    image: &[u8],
    entries: &[u8],
) -> Result<(), KeeperError>
    requires mode { conn.old.in_transaction ≡ false }
    requires ready { IsReady (state S.Store conn.old) }
    ensures mode { conn.new.in_transaction ≡ false }
    ensures ready { IsReady (state S.Store conn.new) }
    ensures sound { IsSound (state S.Store conn.new) → IsSound (state S.Store conn.old) }
    ensures is_open { IsOpenOnOk result (state S.Store conn.new) (state S.Store conn.new) }
    ensures written { IsSound (state S.Store conn.new)
        → OnOk result (PutsBoth (state S.Store conn.old).now (state S.Store conn.new).now handler image.now entries.now) }
    ensures refused { IsSound (state S.Store conn.new) → OnErr result ((state S.Store conn.new).now ≡ (state S.Store conn.old).now) }
    ensures named { IfErr result IsPutError }
    ensures survives { Survives (state S.Store conn.old) (state S.Store conn.new) (λ trees. (db : Database)
        × PutsBoth (state S.Store conn.old).now db handler image.now entries.now × (trees ≡ db.trees)) }
{
    let mut tx = conn.transaction();
    put_both(&mut tx, handler, image, entries)?;
    match tx.commit() {
        Ok(()) => Ok(()),
        Err(error) => Err(refusal(error)),
    }
}

/// Stores and commits the states in one transaction, all or none.
pub(crate) fn write_states<S: Alter>(
    alloc: Global,
    conn: &mut Connection<S>,
    all: &[HandlerState],
) -> Result<(), KeeperError>
    requires some { all.now ≢ [] }
    requires mode { conn.old.in_transaction ≡ false }
    requires ready { IsReady (state S.Store conn.old) }
    ensures mode { conn.new.in_transaction ≡ false }
    ensures ready { IsReady (state S.Store conn.new) }
    ensures sound { IsSound (state S.Store conn.new) → IsSound (state S.Store conn.old) }
    ensures is_open { IsOpenOnOk result (state S.Store conn.new) (state S.Store conn.new) }
    ensures written { IsSound (state S.Store conn.new)
        → OnOk result (SavesAll (state S.Store conn.old).now (state S.Store conn.new).now all.now) }
    ensures refused { IsSound (state S.Store conn.new) → OnErr result ((state S.Store conn.new).now ≡ (state S.Store conn.old).now) }
    ensures named { IfErr result IsPutError }
    ensures survives { Survives (state S.Store conn.old) (state S.Store conn.new) (λ trees. (db : Database)
        × SavesAll (state S.Store conn.old).now db all.now × (trees ≡ db.trees)) }
{
    let mut tx = conn.transaction();
    put_states(alloc, &mut tx, all)?;
    match tx.commit() {
        Ok(()) => Ok(()),
        Err(error) => Err(refusal(error)),
    }
}

/// The handler's state, in the transaction.
#[tactic(auto, unfolding(crate::specs::Store::handlers_in))]
fn find_state<S: Alter>(
    alloc: Global,
    tx: &mut Transaction<'_, S>,
    handler: HandlerId,
) -> Result<Option<HandlerState>, KeeperError>
    requires { IsSound (state S.Store tx.old.conn.now) → IsRecord (state S.Store tx.old.conn.now).now }
    ensures same_reference { tx.new.conn.ghost_name ≡ tx.old.conn.ghost_name }
    ensures is_open { IsOpenOnOk result (state S.Store tx.old.conn.now) (state S.Store tx.new.conn.now) }
    ensures loaded { HasCleanDisk (state S.Store tx.new.conn.now)
        → IfOk result (λ found. IsTheOne (handlers_in (state S.Store tx.old.conn.now).now handler.0) (stored_of found)) }
    ensures own { IfOk result (λ found. IfSome found (λ s. s.number ≡ handler)) }
    ensures bad { HasCleanDisk (state S.Store tx.new.conn.now) → result ≡ Err (KeeperError.BadImage handler)
        → IsTheOne (handlers_in (state S.Store tx.old.conn.now).now handler.0) Damaged }
    ensures kept { HasCleanDisk (state S.Store tx.new.conn.now) → KeepsCommit (state S.Store tx.old.conn.now) (state S.Store tx.new.conn.now) }
    ensures named { IfErr result (λ e. IsPutError e ⊎ (e ≡ KeeperError.BadImage handler)) }
    ensures survives { Survives (state S.Store tx.old.conn.now) (state S.Store tx.new.conn.now) (λ _. ⊥) }
{
    let images = match rows_of_handler(tx, handler.0) {
        Ok(rows) => rows,
        Err(error) => return Err(refusal(error)),
    };
    let entries = match rows_of_pending(tx, handler.0) {
        Ok(rows) => rows,
        Err(error) => return Err(refusal(error)),
    };
    let image = bytes_of(images.as_slice())?;
    let entries = bytes_of(entries.as_slice())?;
    state_of(alloc, handler, image, entries)
}

/// The handler's stored state, read in one transaction.
pub(crate) fn load<S: Alter>(
    alloc: Global,
    conn: &mut Connection<S>,
    handler: HandlerId,
) -> Result<Option<HandlerState>, KeeperError>
    requires mode { conn.old.in_transaction ≡ false }
    requires ready { IsReady (state S.Store conn.old) }
    ensures mode { conn.new.in_transaction ≡ false }
    ensures ready { IsReady (state S.Store conn.new) }
    ensures sound { IsSound (state S.Store conn.new) → IsSound (state S.Store conn.old) }
    ensures same { IsSound (state S.Store conn.new) → (state S.Store conn.new).now ≡ (state S.Store conn.old).now }
    ensures is_open { IsOpenOnOk result (state S.Store conn.old) (state S.Store conn.new) }
    ensures loaded { HasCleanDisk (state S.Store conn.new)
        → IfOk result (λ found. IsTheOne (handlers_in (state S.Store conn.old).now handler.0) (stored_of found)) }
    ensures own { IfOk result (λ found. IfSome found (λ s. s.number ≡ handler)) }
    ensures bad { HasCleanDisk (state S.Store conn.new) → result ≡ Err (KeeperError.BadImage handler)
        → IsTheOne (handlers_in (state S.Store conn.old).now handler.0) Damaged }
    ensures named { IfErr result (λ e. IsPutError e ⊎ (e ≡ KeeperError.BadImage handler)) }
    ensures survives { Survives (state S.Store conn.old) (state S.Store conn.new) (λ _. ⊥) }
{
    let mut tx = conn.transaction();
    find_state(alloc, &mut tx, handler)
}

/// The image of the state, as [`image`] makes it, and the row of its pending entries, as [`pending_row`] does.
///
/// `OutOfMemory` is the one refusal.
pub fn images_of(alloc: Global, it: &HandlerState) -> Result<(Vec<u8>, Vec<u8>), OutOfMemory>
    ensures { IfOk result (λ rows. IsStored it.now.number rows.0.items rows.1.items it.now) }
{
    // Shows the prover that the value is a state, as any reader of the type does.
    let _number = it.handler();
    let bytes = image(alloc, it)?;
    let row = pending_row(alloc, it)?;
    Ok((bytes, row))
}

/// Stores the state, in the transaction.
fn put_state<S: Alter>(
    alloc: Global,
    tx: &mut Transaction<'_, S>,
    it: &HandlerState,
) -> Result<(), KeeperError>
    requires { IsSound (state S.Store tx.old.conn.now) → IsRecord (state S.Store tx.old.conn.now).now }
    ensures same_reference { tx.new.conn.ghost_name ≡ tx.old.conn.ghost_name }
    ensures put { HasCleanDisk (state S.Store tx.new.conn.now)
        → OnOk result (IsState it.now × InRange it.now × Saves (state S.Store tx.old.conn.now).now (state S.Store tx.new.conn.now).now it.now
        × Shows (state S.Store tx.old.conn.now) (state S.Store tx.new.conn.now) (state S.Store tx.new.conn.now).now
        (state S.Store tx.old.conn.now).committed true) }
    ensures kept { HasCleanDisk (state S.Store tx.new.conn.now) → KeepsCommit (state S.Store tx.old.conn.now) (state S.Store tx.new.conn.now) }
    ensures named { IfErr result IsPutError }
    ensures survives { Survives (state S.Store tx.old.conn.now) (state S.Store tx.new.conn.now) (λ _. ⊥) }
{
    let Ok((bytes, row)) = images_of(alloc, it) else {
        return Err(KeeperError::OutOfMemory);
    };
    put_both(tx, it.handler().0, bytes.as_slice(), row.as_slice())
}

/// Stores the states in turn, in the transaction.
pub(crate) fn put_states<S: Alter>(
    alloc: Global,
    tx: &mut Transaction<'_, S>,
    all: &[HandlerState],
) -> Result<(), KeeperError>
    requires { IsSound (state S.Store tx.old.conn.now) → IsRecord (state S.Store tx.old.conn.now).now }
    ensures same_reference { tx.new.conn.ghost_name ≡ tx.old.conn.ghost_name }
    ensures put { IsSound (state S.Store tx.new.conn.now)
        → OnOk result (SavesAll (state S.Store tx.old.conn.now).now (state S.Store tx.new.conn.now).now all.now) }
    ensures layout { IsSound (state S.Store tx.new.conn.now) → OnOk result (IsRecord (state S.Store tx.new.conn.now).now) }
    ensures inside { HasCleanDisk (state S.Store tx.new.conn.now) → OnOk result (IsInsideAfter all.now (state S.Store tx.new.conn.now)) }
    ensures kept { HasCleanDisk (state S.Store tx.new.conn.now) → KeepsCommit (state S.Store tx.old.conn.now) (state S.Store tx.new.conn.now) }
    ensures named { IfErr result IsPutError }
    ensures survives { Survives (state S.Store tx.old.conn.now) (state S.Store tx.new.conn.now) (λ _. ⊥) }
{
    for it in all {
        put_state(alloc, tx, it)?;
    }
    Ok(())
}
