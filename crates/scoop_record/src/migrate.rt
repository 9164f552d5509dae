//! Migration of a record of version 1 to version 2.

ghost use Rattle.std.specs.Prelude.{◌≡◌, ◌⊎◌, ◌∷◌, [], codes, map, pos, Some, true, false, IsTrue, IfOk, IfErr, OnOk, OnErr, IsPermutation};
ghost use Rattle.std.specs.List.{AllZip};
ghost use Rattle.sqlite.specs.Effect.{Database, IsDatabase};
ghost use Rattle.sqlite.specs.Held.{state};
ghost use Rattle.sqlite.specs.State.{HasCleanDisk, IsUnchanged, KeepsCommit, Shows, Survives};
ghost use Rattle.sqlite.specs.declared.types.Value.TheVariants.{Int};
ghost use Rattle.sqlite_value.specs.Order.{column};
ghost use Rattle.scoop_record.specs.Store.{IsSound, IsOpenOnOk, IsRecord, IsOfVersionOne};
ghost use Rattle.scoop_record.specs.Tables.{value_at};
ghost use Rattle.scoop_record.specs.Among.{HasRoom, PutsAmong, meta_tree, handlers_tree};
ghost use Rattle.scoop_keeper.specs.Keeper.{IsPutError, IsAdoptError};
ghost use Rattle.scoop_record.specs.Migrate.{keyed_value, Migrates, IsFirstRow, IsRising, IsNumber, AreNumbers, AreNumbered, IsBadRow, IsFirstBad};
ghost use Rattle.scoop_record.specs.Migrate.{IsLowestBad, HasOtherNumber};

use crate::create::create_pending;
use crate::handlers::put_states;
use crate::images::{ReadError, read_image_with_entries};
use crate::refusal::refusal;
use scoop_handler::HandlerState;
use scoop_keeper::KeeperError;
use scoop_message::HandlerId;
use sqlite::{Alter, Connection, Error, Row, Transaction, params};
use std::alloc::Global;

/// Each handler's number and image, by number.
fn rows_of_handlers<S: Alter>(tx: &mut Transaction<'_, S>) -> Result<Vec<Row>, Error>
    requires { IsSound (state S.Store tx.old.conn.now) → IsRecord (state S.Store tx.old.conn.now).now }
    ensures same_reference { tx.new.conn.ghost_name ≡ tx.old.conn.ghost_name }
    ensures rows { HasCleanDisk (state S.Store tx.new.conn.now)
        → IfOk result (λ rows. IsUnchanged (state S.Store tx.old.conn.now) (state S.Store tx.new.conn.now)
        × IsPermutation (map keyed_value ((state S.Store tx.old.conn.now).now.trees (handlers_tree (state S.Store tx.old.conn.now).now.schema)))
        rows.items) }
    ensures kept { HasCleanDisk (state S.Store tx.new.conn.now) → KeepsCommit (state S.Store tx.old.conn.now) (state S.Store tx.new.conn.now) }
    ensures survives { Survives (state S.Store tx.old.conn.now) (state S.Store tx.new.conn.now) (λ _. ⊥) }
{
    tx.query_all("SELECT h, image FROM handlers ORDER BY h", &[])
}

/// Writes this version, if there is one already.
fn raise_version<S: Alter>(tx: &mut Transaction<'_, S>, version: u32) -> Result<usize, Error>
    requires { IsSound (state S.Store tx.old.conn.now) → IsRecord (state S.Store tx.old.conn.now).now
        × (value_at ((state S.Store tx.old.conn.now).now.trees (meta_tree (state S.Store tx.old.conn.now).now.schema)) 1 ≡ Some (Int (pos 1))) }
    ensures same_reference { tx.new.conn.ghost_name ≡ tx.old.conn.ghost_name }
    ensures put { HasCleanDisk (state S.Store tx.new.conn.now)
        → OnOk result ((PutsAmong (state S.Store tx.old.conn.now).now (state S.Store tx.new.conn.now).now
        (meta_tree (state S.Store tx.old.conn.now).now.schema) 1 (Int (pos version))
        × IsDatabase (state S.Store tx.new.conn.now).now)
        × Shows (state S.Store tx.old.conn.now) (state S.Store tx.new.conn.now) (state S.Store tx.new.conn.now).now
        (state S.Store tx.old.conn.now).committed true) }
    ensures kept { HasCleanDisk (state S.Store tx.new.conn.now) → KeepsCommit (state S.Store tx.old.conn.now) (state S.Store tx.new.conn.now) }
    ensures survives { Survives (state S.Store tx.old.conn.now) (state S.Store tx.new.conn.now) (λ _. ⊥) }
{
    tx.execute(
        "UPDATE meta SET version = ?1 WHERE id = 1",
        params![version],
    )
}

/// The tables of version 1 become those of version 2, in the transaction.
fn migrate_in<S: Alter>(alloc: Global, tx: &mut Transaction<'_, S>) -> Result<(), KeeperError>
    requires { IsSound (state S.Store tx.old.conn.now) → IsOfVersionOne (state S.Store tx.old.conn.now).now
        × HasRoom (state S.Store tx.old.conn.now).now.schema (codes "pending" ∷ []) }
    ensures same_reference { tx.new.conn.ghost_name ≡ tx.old.conn.ghost_name }
    ensures migrated { HasCleanDisk (state S.Store tx.new.conn.now)
        → OnOk result (Migrates (state S.Store tx.old.conn.now).now (state S.Store tx.new.conn.now).now) }
    ensures inside { HasCleanDisk (state S.Store tx.new.conn.now)
        → OnOk result (IsTrue (state S.Store tx.new.conn.now).is_open × IsTrue (state S.Store tx.new.conn.now).in_transaction) }
    ensures kept { HasCleanDisk (state S.Store tx.new.conn.now) → KeepsCommit (state S.Store tx.old.conn.now) (state S.Store tx.new.conn.now) }
    ensures bad { HasCleanDisk (state S.Store tx.new.conn.now) → (handler : HandlerId) → result ≡ Err (KeeperError.BadImage handler)
        → IsLowestBad (state S.Store tx.old.conn.now).now handler.0 }
    ensures wrong { HasCleanDisk (state S.Store tx.new.conn.now) → result ≡ Err KeeperError.WrongSchema → HasOtherNumber (state S.Store tx.old.conn.now).now }
    ensures named { IfErr result IsAdoptError }
    ensures survives { Survives (state S.Store tx.old.conn.now) (state S.Store tx.new.conn.now) (λ _. ⊥) }
{
    if let Err(error) = create_pending(tx) {
        return Err(refusal(error));
    }
    let rows = match rows_of_handlers(tx) {
        Ok(rows) => rows,
        Err(error) => return Err(refusal(error)),
    };
    let all = states_of(alloc, rows.as_slice())?;
    put_states(alloc, tx, all.as_slice())?;
    match raise_version(tx, 2) {
        Ok(_) => Ok(()),
        Err(error) => Err(refusal(error)),
    }
}

/// The tables of version 1 become those of version 2, in one transaction.
pub(crate) fn migrate<S: Alter>(alloc: Global, conn: &mut Connection<S>) -> Result<(), KeeperError>
    requires mode { conn.old.in_transaction ≡ false }
    requires first { IsSound (state S.Store conn.old) → IsOfVersionOne (state S.Store conn.old).now
        × HasRoom (state S.Store conn.old).now.schema (codes "pending" ∷ []) }
    requires settled { IsSound (state S.Store conn.old) → (state S.Store conn.old).now ≡ (state S.Store conn.old).committed }
    ensures mode { conn.new.in_transaction ≡ false }
    ensures sound { IsSound (state S.Store conn.new) → IsSound (state S.Store conn.old) }
    ensures is_open { IsOpenOnOk result (state S.Store conn.new) (state S.Store conn.new) }
    ensures migrated { IsSound (state S.Store conn.new)
        → OnOk result (Migrates (state S.Store conn.old).now (state S.Store conn.new).now
        × ((state S.Store conn.new).now ≡ (state S.Store conn.new).committed)) }
    ensures refused { IsSound (state S.Store conn.new) → OnErr result ((state S.Store conn.new).now ≡ (state S.Store conn.old).now) }
    ensures bad { IsSound (state S.Store conn.new) → (handler : HandlerId) → result ≡ Err (KeeperError.BadImage handler)
        → IsLowestBad (state S.Store conn.old).now handler.0 }
    ensures wrong { IsSound (state S.Store conn.new) → result ≡ Err KeeperError.WrongSchema → HasOtherNumber (state S.Store conn.old).now }
    ensures named { IfErr result IsAdoptError }
    ensures survives { Survives (state S.Store conn.old) (state S.Store conn.new) (λ trees. IsTrue (state S.Store conn.old).is_open × (db : Database)
        × Migrates (state S.Store conn.old).now db × (trees ≡ db.trees)) }
{
    let mut tx = conn.transaction();
    migrate_in(alloc, &mut tx)?;
    match tx.commit() {
        Ok(()) => Ok(()),
        Err(error) => Err(refusal(error)),
    }
}

/// The handler's number in the row.
fn handler_in(row: &Row) -> Result<HandlerId, KeeperError>
    ensures number { IfOk result (λ handler. column row.now 0 ≡ Int (pos handler.0)) }
    ensures wrong { result ≡ Err KeeperError.WrongSchema → IsNumber (column row.now 0) → ⊥ }
    ensures named { IfErr result (λ e. IsPutError e ⊎ (e ≡ KeeperError.WrongSchema)) }
{
    let number: i64 = match row.get(0) {
        Ok(number) => number,
        Err(error) => return Err(refusal(error)),
    };
    match u32::try_from(number) {
        Ok(handler) => Ok(HandlerId(handler)),
        Err(_) => Err(KeeperError::WrongSchema),
    }
}

/// Refused: `WrongSchema` if a number in the rows is no handler's, `Refused` if they don't rise.
fn check_numbers(rows: &[Row]) -> Result<(), KeeperError>
    ensures numbered { OnOk result (AreNumbered rows.now) }
    ensures wrong { result ≡ Err KeeperError.WrongSchema → AreNumbers rows.now → ⊥ }
    ensures named { IfErr result (λ e. IsPutError e ⊎ (e ≡ KeeperError.WrongSchema)) }
{
    let mut low = 0u64;
    for row in rows {
        let handler = handler_in(row)?;
        if u64::from(handler.0) < low {
            return Err(KeeperError::Refused);
        }
        low = u64::from(handler.0) + 1;
    }
    Ok(())
}

/// The state whose image is in the row.
fn state_in_row(alloc: Global, row: &Row) -> Result<HandlerState, KeeperError>
    ensures state { IfOk result (IsFirstRow row.now) }
    ensures bad { (handler : HandlerId) → result ≡ Err (KeeperError.BadImage handler) → IsBadRow handler.0 row.now }
    ensures wrong { result ≡ Err KeeperError.WrongSchema → IsNumber (column row.now 0) → ⊥ }
    ensures named { IfErr result IsAdoptError }
{
    let handler = handler_in(row)?;
    let bytes: Vec<u8> = match row.get(1) {
        Ok(bytes) => bytes,
        Err(error) => return Err(refusal(error)),
    };
    match read_image_with_entries(alloc, handler, bytes.as_slice()) {
        Ok(state) => Ok(state),
        Err(ReadError::BadImage) => Err(KeeperError::BadImage(handler)),
        Err(ReadError::OutOfMemory) => Err(KeeperError::OutOfMemory),
    }
}

/// The states whose images are in the rows, whose numbers rise.
fn states_of(alloc: Global, rows: &[Row]) -> Result<Vec<HandlerState>, KeeperError>
    ensures read { IfOk result (λ all. AllZip IsFirstRow rows.now all.items) }
    ensures rises { IfOk result (λ all. IsRising all.items) }
    ensures bad { (handler : HandlerId) → result ≡ Err (KeeperError.BadImage handler) → IsFirstBad rows.now handler.0 }
    ensures wrong { result ≡ Err KeeperError.WrongSchema → AreNumbers rows.now → ⊥ }
    ensures named { IfErr result IsAdoptError }
{
    check_numbers(rows)?;
    let mut all: Vec<HandlerState> = Vec::new(alloc);
    for row in rows {
        let state = state_in_row(alloc, row)?;
        if all.push(state).is_err() {
            return Err(KeeperError::OutOfMemory);
        }
    }
    Ok(all)
}
