//! The rows of the clients.

ghost use Rattle.std.specs.Prelude.{◌≡◌, ◌≤◌, length, [], ◌∷◌, map, pos, Some, IfOk, IfErr, OnOk, OnErr, false, true, Option, option_map, ◌⊎◌};
ghost use Rattle.std.specs.Option.{option_to_list};
ghost use Rattle.sqlite.specs.Effect.{Database};
ghost use Rattle.sqlite.specs.Held.{state};
ghost use Rattle.sqlite.specs.State.{HasCleanDisk, IsUnchanged, KeepsCommit, Shows, Survives};
ghost use Rattle.sqlite.specs.declared.types.Value.{Value as SqlValue};
ghost use Rattle.sqlite.specs.declared.types.Value.TheVariants.{Int};
ghost use Rattle.scoop_record.specs.Tables.{value_at};
ghost use Rattle.scoop_record.specs.Among.{PutsAmong, clients_tree};
ghost use Rattle.scoop_record.specs.Store.{inc_in, incs_in, IsRecord, IsSound, IsReady, IsOpenOnOk, Advances};
ghost use Rattle.scoop_keeper.specs.Keeper.{next_of, last_incarnation, IsPutError};

use crate::refusal::refusal;
use scoop_keeper::KeeperError;
use sqlite::{Alter, Connection, Error, Row, Transaction, params};

/// The rows with the client's incarnation: none or one.
fn rows_of_client<S: Alter>(tx: &mut Transaction<'_, S>, client: u32) -> Result<Vec<Row>, Error>
    requires { IsSound (state S.Store tx.old.conn.now) → IsRecord (state S.Store tx.old.conn.now).now }
    ensures same_reference { tx.new.conn.ghost_name ≡ tx.old.conn.ghost_name }
    ensures rows { HasCleanDisk (state S.Store tx.new.conn.now)
        → IfOk result (λ rows. IsUnchanged (state S.Store tx.old.conn.now) (state S.Store tx.new.conn.now)
        × (length rows.items ≤ 1 → rows.items ≡ map (λ v. v ∷ []) (option_to_list
        (value_at ((state S.Store tx.old.conn.now).now.trees (clients_tree (state S.Store tx.old.conn.now).now.schema)) client)))) }
    ensures kept { HasCleanDisk (state S.Store tx.new.conn.now) → KeepsCommit (state S.Store tx.old.conn.now) (state S.Store tx.new.conn.now) }
    ensures survives { Survives (state S.Store tx.old.conn.now) (state S.Store tx.new.conn.now) (λ _. ⊥) }
{
    tx.query_all("SELECT inc FROM clients WHERE c = ?1", params![client])
}

/// Writes the client's incarnation, in the transaction.
fn put_inc<S: Alter>(tx: &mut Transaction<'_, S>, client: u32, inc: u32) -> Result<usize, Error>
    requires { IsSound (state S.Store tx.old.conn.now) → IsRecord (state S.Store tx.old.conn.now).now }
    ensures same_reference { tx.new.conn.ghost_name ≡ tx.old.conn.ghost_name }
    ensures put { HasCleanDisk (state S.Store tx.new.conn.now)
        → OnOk result (PutsAmong (state S.Store tx.old.conn.now).now (state S.Store tx.new.conn.now).now
        (clients_tree (state S.Store tx.old.conn.now).now.schema) client (Int (pos inc))
        × Shows (state S.Store tx.old.conn.now) (state S.Store tx.new.conn.now) (state S.Store tx.new.conn.now).now
        (state S.Store tx.old.conn.now).committed true) }
    ensures kept { HasCleanDisk (state S.Store tx.new.conn.now) → KeepsCommit (state S.Store tx.old.conn.now) (state S.Store tx.new.conn.now) }
    ensures survives { Survives (state S.Store tx.old.conn.now) (state S.Store tx.new.conn.now) (λ _. ⊥) }
{
    tx.execute(
        "INSERT INTO clients (c, inc) VALUES (?1, ?2) ON CONFLICT (c) DO UPDATE SET inc = excluded.inc",
        params![client, inc],
    )
}

/// The incarnation after the one in the row, if there is one.
fn next_in(rows: &[Row]) -> Result<u32, KeeperError>
    ensures next { (stored : Option SqlValue) → (length rows.now ≤ 1 → rows.now ≡ map (λ v. v ∷ []) (option_to_list stored))
        → IfOk result (λ inc. inc ≡ next_of (option_map inc_in stored)) }
    ensures spent { (stored : Option SqlValue) → (length rows.now ≤ 1 → rows.now ≡ map (λ v. v ∷ []) (option_to_list stored))
        → result ≡ Err KeeperError.IncarnationsSpent → option_map inc_in stored ≡ Some last_incarnation }
    ensures named { IfErr result (λ e. IsPutError e ⊎ (e ≡ KeeperError.IncarnationsSpent)) }
{
    let row = match rows {
        [] => return Ok(1),
        [row] => row,
        _ => return Err(KeeperError::Refused),
    };
    let number: i64 = match row.get(0) {
        Ok(number) => number,
        Err(error) => return Err(refusal(error)),
    };
    let Ok(inc) = u32::try_from(number) else {
        return Err(KeeperError::IncarnationsSpent);
    };
    inc.checked_add(1).ok_or(KeeperError::IncarnationsSpent)
}

/// The incarnation after the stored one, if there is one.
#[tactic(auto, unfolding(crate::specs::Store::incs_in))]
fn next_after<S: Alter>(tx: &mut Transaction<'_, S>, client: u32) -> Result<u32, KeeperError>
    requires { IsSound (state S.Store tx.old.conn.now) → IsRecord (state S.Store tx.old.conn.now).now }
    ensures same_reference { tx.new.conn.ghost_name ≡ tx.old.conn.ghost_name }
    ensures next { HasCleanDisk (state S.Store tx.new.conn.now)
        → IfOk result (λ inc. IsUnchanged (state S.Store tx.old.conn.now) (state S.Store tx.new.conn.now)
        × (inc ≡ next_of (incs_in (state S.Store tx.old.conn.now).now client))) }
    ensures spent { HasCleanDisk (state S.Store tx.new.conn.now) → result ≡ Err KeeperError.IncarnationsSpent
        → incs_in (state S.Store tx.old.conn.now).now client ≡ Some last_incarnation }
    ensures named { IfErr result (λ e. IsPutError e ⊎ (e ≡ KeeperError.IncarnationsSpent)) }
    ensures kept { HasCleanDisk (state S.Store tx.new.conn.now) → KeepsCommit (state S.Store tx.old.conn.now) (state S.Store tx.new.conn.now) }
    ensures survives { Survives (state S.Store tx.old.conn.now) (state S.Store tx.new.conn.now) (λ _. ⊥) }
{
    match rows_of_client(tx, client) {
        Ok(rows) => next_in(rows.as_slice()),
        Err(error) => Err(refusal(error)),
    }
}

/// Stores and commits the client's next incarnation, and returns it.
pub(crate) fn advance<S: Alter>(conn: &mut Connection<S>, client: u32) -> Result<u32, KeeperError>
    requires mode { conn.old.in_transaction ≡ false }
    requires ready { IsReady (state S.Store conn.old) }
    ensures mode { conn.new.in_transaction ≡ false }
    ensures ready { IsReady (state S.Store conn.new) }
    ensures sound { IsSound (state S.Store conn.new) → IsSound (state S.Store conn.old) }
    ensures is_open { IsOpenOnOk result (state S.Store conn.new) (state S.Store conn.new) }
    ensures next { IsSound (state S.Store conn.new) → IfOk result (λ inc. (inc ≡ next_of (incs_in (state S.Store conn.old).now client))
        × Advances (state S.Store conn.old).now (state S.Store conn.new).now client) }
    ensures spent { IsSound (state S.Store conn.new) → result ≡ Err KeeperError.IncarnationsSpent
        → incs_in (state S.Store conn.old).now client ≡ Some last_incarnation }
    ensures refused { IsSound (state S.Store conn.new) → OnErr result ((state S.Store conn.new).now ≡ (state S.Store conn.old).now) }
    ensures named { IfErr result (λ e. IsPutError e ⊎ (e ≡ KeeperError.IncarnationsSpent)) }
    ensures survives { Survives (state S.Store conn.old) (state S.Store conn.new) (λ trees. (db : Database)
        × Advances (state S.Store conn.old).now db client × (trees ≡ db.trees)) }
{
    let mut tx = conn.transaction();
    let next = next_after(&mut tx, client)?;
    if let Err(error) = put_inc(&mut tx, client, next) {
        return Err(refusal(error));
    }
    match tx.commit() {
        Ok(()) => Ok(next),
        Err(error) => Err(refusal(error)),
    }
}
