//! The version of a record's tables.

ghost use Rattle.std.specs.Prelude.{◌≡◌, ◌≤◌, ◌∷◌, [], map, length, IsTrue, false, IfOk, IfErr, Option};
ghost use Rattle.std.specs.Option.{option_to_list};
ghost use Rattle.sqlite.specs.declared.types.Value.{Value as SqlValue};
ghost use Rattle.sqlite.specs.Held.{state};
ghost use Rattle.sqlite.specs.State.{HasCleanDisk, KeepsCommit, Survives};
ghost use Rattle.scoop_keeper.specs.Keeper.{IsPutError};
ghost use Rattle.scoop_record.specs.Store.{IsSound, IsLaidOut, IsOpenOnOk, number_of, TellsVersion};
ghost use Rattle.scoop_record.specs.Tables.{value_at};
ghost use Rattle.scoop_record.specs.Among.{meta_tree};

use crate::refusal::refusal;
use scoop_keeper::KeeperError;
use sqlite::{Alter, Connection, Error, ErrorCode, Row, Transaction};

/// The version of the tables that a store makes. Contracts name the number itself, so no other may stand here.
pub const VERSION: u32 = 2;

/// The rows with the version, under any schema.
fn rows_of_meta<S: Alter>(tx: &mut Transaction<'_, S>) -> Result<Vec<Row>, Error>
    ensures same_reference { tx.new.conn.ghost_name ≡ tx.old.conn.ghost_name }
    ensures is_open { IsOpenOnOk result (state S.Store tx.old.conn.now) (state S.Store tx.new.conn.now) }
    ensures version { HasCleanDisk (state S.Store tx.new.conn.now) → IfOk result (λ rows. IsLaidOut (state S.Store tx.old.conn.now).now
        → length rows.items ≤ 1 → rows.items ≡ map (λ v. v ∷ []) (option_to_list
        (value_at ((state S.Store tx.old.conn.now).now.trees (meta_tree (state S.Store tx.old.conn.now).now.schema)) 1))) }
    ensures kept { HasCleanDisk (state S.Store tx.new.conn.now) → IsTrue (state S.Store tx.old.conn.now).in_transaction
        → KeepsCommit (state S.Store tx.old.conn.now) (state S.Store tx.new.conn.now) }
    ensures survives { Survives (state S.Store tx.old.conn.now) (state S.Store tx.new.conn.now) (λ _. ⊥) }
{
    tx.query_all("SELECT version FROM meta WHERE id = 1", &[])
}

/// The number in the row, if there is a row with one.
fn number_in(rows: &[Row]) -> Result<Option<i64>, KeeperError>
    ensures number { (stored : Option SqlValue) → (length rows.now ≤ 1 → rows.now ≡ map (λ v. v ∷ []) (option_to_list stored))
        → IfOk result (λ found. found ≡ number_of stored) }
    ensures named { IfErr result IsPutError }
{
    let row = match rows {
        [] => return Ok(None),
        [row] => row,
        _ => return Err(KeeperError::Refused),
    };
    match row.get(0) {
        Ok(number) => Ok(Some(number)),
        Err(Error::SqliteFailure(ErrorCode::OutOfMemory)) => Err(KeeperError::OutOfMemory),
        Err(_) => Ok(None),
    }
}

fn find_version<S: Alter>(tx: &mut Transaction<'_, S>) -> Result<Option<i64>, KeeperError>
    ensures same_reference { tx.new.conn.ghost_name ≡ tx.old.conn.ghost_name }
    ensures is_open { IsOpenOnOk result (state S.Store tx.old.conn.now) (state S.Store tx.new.conn.now) }
    ensures version { HasCleanDisk (state S.Store tx.new.conn.now) → IfOk result (TellsVersion (state S.Store tx.old.conn.now).now) }
    ensures kept { HasCleanDisk (state S.Store tx.new.conn.now) → IsTrue (state S.Store tx.old.conn.now).in_transaction
        → KeepsCommit (state S.Store tx.old.conn.now) (state S.Store tx.new.conn.now) }
    ensures named { IfErr result IsPutError }
    ensures survives { Survives (state S.Store tx.old.conn.now) (state S.Store tx.new.conn.now) (λ _. ⊥) }
{
    match rows_of_meta(tx) {
        Ok(rows) => number_in(rows.as_slice()),
        Err(error) => Err(refusal(error)),
    }
}

/// The version of the tables, if there is one.
pub(crate) fn version<S: Alter>(conn: &mut Connection<S>) -> Result<Option<i64>, KeeperError>
    requires mode { conn.old.in_transaction ≡ false }
    ensures mode { conn.new.in_transaction ≡ false }
    ensures sound { IsSound (state S.Store conn.new) → IsSound (state S.Store conn.old) }
    ensures same { IsSound (state S.Store conn.new) → ((state S.Store conn.new).now ≡ (state S.Store conn.old).committed)
        × ((state S.Store conn.new).committed ≡ (state S.Store conn.old).committed) }
    ensures is_open { IsOpenOnOk result (state S.Store conn.old) (state S.Store conn.new) }
    ensures version { HasCleanDisk (state S.Store conn.new) → IfOk result (TellsVersion (state S.Store conn.old).now) }
    ensures named { IfErr result IsPutError }
    ensures survives { Survives (state S.Store conn.old) (state S.Store conn.new) (λ _. ⊥) }
{
    let mut tx = conn.transaction();
    find_version(&mut tx)
}
