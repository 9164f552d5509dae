//! Adoption of a database that has the tables of a record.

ghost use Rattle.std.specs.Prelude.{◌≡◌, IsTrue, false, IfErr, OnOk, OnErr};
ghost use Rattle.sqlite.specs.Effect.{Database};
ghost use Rattle.sqlite.specs.Held.{state};
ghost use Rattle.sqlite.specs.State.{Survives};
ghost use Rattle.scoop_keeper.specs.Keeper.{IsAdoptError};
ghost use Rattle.scoop_record.specs.Migrate.{Migrates, Adopts, IsLowestBad, IsWrongSchema};
ghost use Rattle.scoop_record.specs.Store.{IsSound, IsReady, IsIdle, IsOpenOnOk, IsOfVersionOne, IsLaidOut};

use crate::migrate::migrate;
use crate::schema::{has_room_for_pending, is_first_schema, is_record_schema};
use crate::version::version;
use scoop_keeper::KeeperError;
use scoop_message::HandlerId;
use sqlite::{Alter, Connection};
use std::alloc::Global;

/// The tables are those of version 2, or become them.
fn take_tables<S: Alter>(alloc: Global, conn: &mut Connection<S>) -> Result<(), KeeperError>
    requires mode { conn.old.in_transaction ≡ false }
    requires settled { IsSound (state S.Store conn.old) → (state S.Store conn.old).now ≡ (state S.Store conn.old).committed }
    ensures mode { conn.new.in_transaction ≡ false }
    ensures sound { IsSound (state S.Store conn.new) → IsSound (state S.Store conn.old) }
    ensures ready { OnOk result (IsReady (state S.Store conn.new)) }
    ensures is_open { IsOpenOnOk result (state S.Store conn.old) (state S.Store conn.new) }
    ensures open_behind { IsOfVersionOne (state S.Store conn.old).now → IsOpenOnOk result (state S.Store conn.new) (state S.Store conn.new) }
    ensures adopted { IsSound (state S.Store conn.new) → OnOk result (Adopts (state S.Store conn.old).now (state S.Store conn.new).now) }
    ensures refused { IsSound (state S.Store conn.new) → OnErr result ((state S.Store conn.new).now ≡ (state S.Store conn.old).now) }
    ensures bad { IsSound (state S.Store conn.new) → (handler : HandlerId) → result ≡ Err (KeeperError.BadImage handler)
        → IsLowestBad (state S.Store conn.old).now handler.0 }
    ensures wrong { IsSound (state S.Store conn.new) → result ≡ Err KeeperError.WrongSchema → IsLaidOut (state S.Store conn.old).now
        → IsWrongSchema (state S.Store conn.old).now }
    ensures named { IfErr result IsAdoptError }
    ensures survives { Survives (state S.Store conn.old) (state S.Store conn.new) (λ trees. (db : Database) × Migrates (state S.Store conn.old).now db
        × (trees ≡ db.trees)) }
{
    let Some(found) = version(conn)? else {
        return Err(KeeperError::WrongSchema);
    };
    if found != 1 && found != 2 {
        return Err(KeeperError::WrongSchema);
    }
    if found == 2 && is_record_schema(conn.schema()) {
        return Ok(());
    }
    if found == 1 && is_first_schema(conn.schema()) && has_room_for_pending(conn.schema()) {
        return migrate(alloc, conn);
    }
    Err(KeeperError::Refused)
}

/// Adopts a database that has the tables. Tables of version 1 become those of version 2, in one transaction. This does
/// what `Store::adopt` does, on a connection that stays the caller's, even if it is refused.
///
/// Refused, with the database as it was:
/// - `WrongSchema` if there is no version or another one, or a number in a table of version 1 is no handler's;
/// - `BadImage` for the lowest handler whose image of version 1 is no state's;
/// - `Refused` if the connection is in a transaction, the tables are not those of their version, version 1 has no room
///   for the table that version 2 adds, or a text is refused;
/// - `OutOfMemory`.
pub fn adopt_tables<S: Alter>(alloc: Global, conn: &mut Connection<S>) -> Result<(), KeeperError>
    ensures mode { conn.new.in_transaction ≡ conn.old.in_transaction }
    ensures idle { OnOk result (IsIdle S.Store conn.new) }
    ensures is_open { IsOpenOnOk result (state S.Store conn.old) (state S.Store conn.new) }
    ensures open_behind { IsOfVersionOne (state S.Store conn.old).now → IsOpenOnOk result (state S.Store conn.new) (state S.Store conn.new) }
    ensures adopted { IsSound (state S.Store conn.new) → OnOk result (Adopts (state S.Store conn.old).now (state S.Store conn.new).now) }
    ensures inside { IsTrue conn.old.in_transaction → (result ≡ Err KeeperError.Refused) × (conn.new ≡ conn.old) }
    ensures refused { IsSound (state S.Store conn.new) → OnErr result ((state S.Store conn.new).now ≡ (state S.Store conn.old).now) }
    ensures bad { IsSound (state S.Store conn.new) → (handler : HandlerId) → result ≡ Err (KeeperError.BadImage handler)
        → IsLowestBad (state S.Store conn.old).now handler.0 }
    ensures wrong { IsSound (state S.Store conn.new) → result ≡ Err KeeperError.WrongSchema → IsLaidOut (state S.Store conn.old).now
        → IsWrongSchema (state S.Store conn.old).now }
    ensures named { IfErr result IsAdoptError }
    ensures sound { IsSound (state S.Store conn.new) → IsSound (state S.Store conn.old) }
    // A crash leaves what it could leave before the call, or the whole record in version 2.
    ensures survives { Survives (state S.Store conn.old) (state S.Store conn.new) (λ trees. (db : Database) × Migrates (state S.Store conn.old).now db
        × (trees ≡ db.trees)) }
{
    if !conn.is_autocommit() {
        return Err(KeeperError::Refused);
    }
    take_tables(alloc, conn)
}
