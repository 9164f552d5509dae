//! Creation of the tables of a record.

ghost use Rattle.std.specs.Prelude.{◌≡◌, ◌∷◌, [], codes, pos, IsTrue, IfErr, OnOk, OnErr, true, false, List, ℕ};
ghost use Rattle.sqlite.specs.Effect.{Database, IsDatabase};
ghost use Rattle.sqlite.specs.Held.{state};
ghost use Rattle.sqlite.specs.State.{HasCleanDisk, KeepsCommit, Shows, Survives};
ghost use Rattle.sqlite.specs.declared.types.Value.TheVariants.{Int};
ghost use Rattle.sqlite.specs.Does.{lacks_sequence};
ghost use Rattle.sqlite_rules.specs.Lists.{Has};
ghost use Rattle.scoop_record.specs.Tables.{meta, handlers, clients, pending, row_of, Makes};
ghost use Rattle.scoop_record.specs.Among.{IsFree, HasTable, HasRoom, PutsAmong, meta_tree, record_names};
ghost use Rattle.scoop_record.specs.Store.{IsSound, IsIdle, IsOpenOnOk, IsNewRecord};
ghost use Rattle.scoop_keeper.specs.Keeper.{IsPutError};

use crate::refusal::refusal;
use crate::schema::has_room;
use crate::version::VERSION;
use scoop_keeper::KeeperError;
use sqlite::{Alter, Connection, Error, Transaction, params};

fn create_meta<S: Alter>(tx: &mut Transaction<'_, S>) -> Result<usize, Error>
    requires { IsSound (state S.Store tx.old.conn.now) → IsFree (state S.Store tx.old.conn.now).now.schema (codes "meta")
        × (lacks_sequence (state S.Store tx.old.conn.now).now.schema ≡ false) }
    ensures same_reference { tx.new.conn.ghost_name ≡ tx.old.conn.ghost_name }
    ensures made { HasCleanDisk (state S.Store tx.new.conn.now)
        → OnOk result (Makes (state S.Store tx.old.conn.now).now (state S.Store tx.new.conn.now).now (meta 0)
        × Shows (state S.Store tx.old.conn.now) (state S.Store tx.new.conn.now) (state S.Store tx.new.conn.now).now
        (state S.Store tx.old.conn.now).committed true) }
    ensures kept { HasCleanDisk (state S.Store tx.new.conn.now) → KeepsCommit (state S.Store tx.old.conn.now) (state S.Store tx.new.conn.now) }
    ensures survives { Survives (state S.Store tx.old.conn.now) (state S.Store tx.new.conn.now) (λ _. ⊥) }
{
    tx.execute(
        "CREATE TABLE meta (id INTEGER PRIMARY KEY, version INTEGER NOT NULL) STRICT",
        &[],
    )
}

fn create_handlers<S: Alter>(tx: &mut Transaction<'_, S>) -> Result<usize, Error>
    requires { IsSound (state S.Store tx.old.conn.now) → IsFree (state S.Store tx.old.conn.now).now.schema (codes "handlers")
        × (lacks_sequence (state S.Store tx.old.conn.now).now.schema ≡ false) }
    ensures same_reference { tx.new.conn.ghost_name ≡ tx.old.conn.ghost_name }
    ensures made { HasCleanDisk (state S.Store tx.new.conn.now)
        → OnOk result (Makes (state S.Store tx.old.conn.now).now (state S.Store tx.new.conn.now).now (handlers 0)
        × Shows (state S.Store tx.old.conn.now) (state S.Store tx.new.conn.now) (state S.Store tx.new.conn.now).now
        (state S.Store tx.old.conn.now).committed true) }
    ensures kept { HasCleanDisk (state S.Store tx.new.conn.now) → KeepsCommit (state S.Store tx.old.conn.now) (state S.Store tx.new.conn.now) }
    ensures survives { Survives (state S.Store tx.old.conn.now) (state S.Store tx.new.conn.now) (λ _. ⊥) }
{
    tx.execute(
        "CREATE TABLE handlers (h INTEGER PRIMARY KEY, image BLOB NOT NULL) STRICT",
        &[],
    )
}

fn create_clients<S: Alter>(tx: &mut Transaction<'_, S>) -> Result<usize, Error>
    requires { IsSound (state S.Store tx.old.conn.now) → IsFree (state S.Store tx.old.conn.now).now.schema (codes "clients")
        × (lacks_sequence (state S.Store tx.old.conn.now).now.schema ≡ false) }
    ensures same_reference { tx.new.conn.ghost_name ≡ tx.old.conn.ghost_name }
    ensures made { HasCleanDisk (state S.Store tx.new.conn.now)
        → OnOk result (Makes (state S.Store tx.old.conn.now).now (state S.Store tx.new.conn.now).now (clients 0)
        × Shows (state S.Store tx.old.conn.now) (state S.Store tx.new.conn.now) (state S.Store tx.new.conn.now).now
        (state S.Store tx.old.conn.now).committed true) }
    ensures kept { HasCleanDisk (state S.Store tx.new.conn.now) → KeepsCommit (state S.Store tx.old.conn.now) (state S.Store tx.new.conn.now) }
    ensures survives { Survives (state S.Store tx.old.conn.now) (state S.Store tx.new.conn.now) (λ _. ⊥) }
{
    tx.execute(
        "CREATE TABLE clients (c INTEGER PRIMARY KEY, inc INTEGER NOT NULL) STRICT",
        &[],
    )
}

pub(crate) fn create_pending<S: Alter>(tx: &mut Transaction<'_, S>) -> Result<usize, Error>
    requires { IsSound (state S.Store tx.old.conn.now) → IsFree (state S.Store tx.old.conn.now).now.schema (codes "pending")
        × (lacks_sequence (state S.Store tx.old.conn.now).now.schema ≡ false) }
    ensures same_reference { tx.new.conn.ghost_name ≡ tx.old.conn.ghost_name }
    ensures made { HasCleanDisk (state S.Store tx.new.conn.now)
        → OnOk result (Makes (state S.Store tx.old.conn.now).now (state S.Store tx.new.conn.now).now (pending 0)
        × Shows (state S.Store tx.old.conn.now) (state S.Store tx.new.conn.now) (state S.Store tx.new.conn.now).now
        (state S.Store tx.old.conn.now).committed true) }
    ensures kept { HasCleanDisk (state S.Store tx.new.conn.now) → KeepsCommit (state S.Store tx.old.conn.now) (state S.Store tx.new.conn.now) }
    ensures survives { Survives (state S.Store tx.old.conn.now) (state S.Store tx.new.conn.now) (λ _. ⊥) }
{
    tx.execute(
        "CREATE TABLE pending (h INTEGER PRIMARY KEY, entries BLOB NOT NULL) STRICT",
        &[],
    )
}

fn put_version<S: Alter>(tx: &mut Transaction<'_, S>, version: u32) -> Result<usize, Error>
    requires { IsSound (state S.Store tx.old.conn.now)
        → HasTable (state S.Store tx.old.conn.now).now.schema (meta (meta_tree (state S.Store tx.old.conn.now).now.schema)) }
    ensures same_reference { tx.new.conn.ghost_name ≡ tx.old.conn.ghost_name }
    ensures put { HasCleanDisk (state S.Store tx.new.conn.now)
        → OnOk result ((PutsAmong (state S.Store tx.old.conn.now).now (state S.Store tx.new.conn.now).now
        (meta_tree (state S.Store tx.old.conn.now).now.schema) 1 (Int (pos version)) × IsDatabase (state S.Store tx.new.conn.now).now
        × ((state S.Store tx.old.conn.now).now.trees (meta_tree (state S.Store tx.old.conn.now).now.schema) ≡ []
        → (state S.Store tx.new.conn.now).now.trees (meta_tree (state S.Store tx.old.conn.now).now.schema) ≡ row_of 1 (Int (pos version)) ∷ []))
        × Shows (state S.Store tx.old.conn.now) (state S.Store tx.new.conn.now) (state S.Store tx.new.conn.now).now
        (state S.Store tx.old.conn.now).committed true) }
    ensures kept { HasCleanDisk (state S.Store tx.new.conn.now) → KeepsCommit (state S.Store tx.old.conn.now) (state S.Store tx.new.conn.now) }
    ensures survives { Survives (state S.Store tx.old.conn.now) (state S.Store tx.new.conn.now) (λ _. ⊥) }
{
    tx.execute(
        "INSERT INTO meta (id, version) VALUES (1, ?1)",
        params![version],
    )
}

fn make_all<S: Alter>(tx: &mut Transaction<'_, S>, version: u32) -> Result<(), Error>
    requires { IsSound (state S.Store tx.old.conn.now) → HasRoom (state S.Store tx.old.conn.now).now.schema record_names }
    ensures same_reference { tx.new.conn.ghost_name ≡ tx.old.conn.ghost_name }
    ensures made { HasCleanDisk (state S.Store tx.new.conn.now)
        → OnOk result (IsNewRecord (state S.Store tx.old.conn.now).now (state S.Store tx.new.conn.now).now version
        × Shows (state S.Store tx.old.conn.now) (state S.Store tx.new.conn.now) (state S.Store tx.new.conn.now).now
        (state S.Store tx.old.conn.now).committed true) }
    ensures kept { HasCleanDisk (state S.Store tx.new.conn.now) → KeepsCommit (state S.Store tx.old.conn.now) (state S.Store tx.new.conn.now) }
    ensures survives { Survives (state S.Store tx.old.conn.now) (state S.Store tx.new.conn.now) (λ _. ⊥) }
{
    create_meta(tx)?;
    create_handlers(tx)?;
    create_clients(tx)?;
    create_pending(tx)?;
    put_version(tx, version)?;
    Ok(())
}

/// Makes the tables in one transaction.
fn make_tables<S: Alter>(conn: &mut Connection<S>, version: u32) -> Result<(), KeeperError>
    requires mode { conn.old.in_transaction ≡ false }
    requires room { IsSound (state S.Store conn.old) → HasRoom (state S.Store conn.old).now.schema record_names
        × ((state S.Store conn.old).now ≡ (state S.Store conn.old).committed) }
    ensures mode { conn.new.in_transaction ≡ false }
    ensures sound { IsSound (state S.Store conn.new) → IsSound (state S.Store conn.old) }
    ensures is_open { IsOpenOnOk result (state S.Store conn.new) (state S.Store conn.new) }
    ensures made { IsSound (state S.Store conn.new)
        → OnOk result (IsNewRecord (state S.Store conn.old).now (state S.Store conn.new).now version
        × ((state S.Store conn.new).now ≡ (state S.Store conn.new).committed)) }
    ensures refused { IsSound (state S.Store conn.new) → OnErr result ((state S.Store conn.new).now ≡ (state S.Store conn.old).now) }
    ensures named { IfErr result IsPutError }
    ensures survives { Survives (state S.Store conn.old) (state S.Store conn.new) (λ trees. (db : Database)
        × IsNewRecord (state S.Store conn.old).now db version × (trees ≡ db.trees)) }
{
    let mut tx = conn.transaction();
    if let Err(error) = make_all(&mut tx, version) {
        return Err(refusal(error));
    }
    match tx.commit() {
        Ok(()) => Ok(()),
        Err(error) => Err(refusal(error)),
    }
}

/// Makes the tables in one transaction, beside the tables that the database has. This does what `Store::create` does, on
/// a connection that stays the caller's, even if it is refused.
///
/// Refused, with the database as it was:
/// - `Refused` if there is no room: a table, an index or a view has one of the four names, a foreign key names one, no
///   trees are left, an index lacks its table, or a counted table its sequence;
/// - `Refused` if the connection is in a transaction, or a text is refused;
/// - `OutOfMemory`.
pub fn create_tables<S: Alter>(conn: &mut Connection<S>) -> Result<(), KeeperError>
    ensures mode { conn.new.in_transaction ≡ conn.old.in_transaction }
    ensures idle { OnOk result (IsIdle S.Store conn.new) }
    ensures is_open { IsOpenOnOk result (state S.Store conn.new) (state S.Store conn.new) }
    ensures made { IsSound (state S.Store conn.new) → OnOk result (IsNewRecord (state S.Store conn.old).now (state S.Store conn.new).now 2) }
    ensures room { OnOk result (HasRoom (state S.Store conn.old).now.schema record_names) }
    ensures other { ¬ HasRoom (state S.Store conn.old).now.schema record_names → (result ≡ Err KeeperError.Refused) × (conn.new ≡ conn.old) }
    ensures taken { (name : List ℕ) → Has record_names name → ¬ IsFree (state S.Store conn.old).now.schema name
        → (result ≡ Err KeeperError.Refused) × (conn.new ≡ conn.old) }
    ensures inside { IsTrue conn.old.in_transaction → (result ≡ Err KeeperError.Refused) × (conn.new ≡ conn.old) }
    ensures refused { IsSound (state S.Store conn.new) → OnErr result ((state S.Store conn.new).now ≡ (state S.Store conn.old).now) }
    ensures named { IfErr result IsPutError }
    ensures sound { IsSound (state S.Store conn.new) → IsSound (state S.Store conn.old) }
    // A crash leaves what it could leave before the call, or all tables of a new record.
    ensures survives { Survives (state S.Store conn.old) (state S.Store conn.new) (λ trees. (db : Database)
        × IsNewRecord (state S.Store conn.old).now db 2 × (trees ≡ db.trees)) }
{
    if !conn.is_autocommit() || !has_room(conn.schema()) {
        return Err(KeeperError::Refused);
    }
    make_tables(conn, VERSION)
}
