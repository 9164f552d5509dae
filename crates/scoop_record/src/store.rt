//! A keeper over the tables of a database.

ghost use Rattle.std.specs.Prelude.{◌≡◌, ◌≢◌, ◌⊎◌, [], ◌∷◌, List, ℕ, IsTrue, IfOk, IfErr, IfSome, OnOk, OnErr, Some};
ghost use Rattle.sqlite_rules.specs.Lists.{Has};
ghost use Rattle.scoop_record.specs.Among.{IsFree, HasRoom, KeepsOthers, record_names, handlers_tree, clients_tree, pending_tree};

use crate::adopt::adopt_tables;
use crate::create::create_tables;
use crate::{clients, handlers};
use scoop_handler::HandlerState;
use scoop_keeper::{Keeper, KeeperError};
use scoop_message::{ClientId, HandlerId};
use sqlite::{Alter, Connection};
use std::alloc::Global;
use std::marker::Model;

/// Stores states and incarnations in the tables of a database. Contracts see it as its connection.
#[derive(Drop)]
pub struct Store<S: Alter + Drop> {
    conn: Connection<S>,
    alloc: Global,
}

impl<S: Alter + Drop> Model for Store<S> {
    ghost use Rattle.sqlite.specs.Held.{Held, held_code};

    ghost Value = { Held S };

    ghost coded = { held_code S.code };

    ghost use Rattle.scoop_record.specs.Store.{IsIdle};

    ghost view = { λ s. s.conn };

    ghost invariant = { λ s. IsIdle S.Store s.conn };
}

impl<S: Alter + Drop> Store<S> {
    ghost use Rattle.sqlite.specs.Effect.{Database};
    ghost use Rattle.sqlite.specs.Held.{Held, state};
    ghost use Rattle.sqlite.specs.State.{HasCleanDisk, Survives};
    ghost use Rattle.scoop_keeper.specs.Keeper.{IsPutError, IsAdoptError, IsSame, Stays};
    ghost use Rattle.scoop_record.specs.Gathering.{Over};
    ghost use Rattle.scoop_record.specs.Migrate.{Migrates, Adopts, IsLowestBad, IsWrongSchema};
    ghost use Rattle.scoop_record.specs.Store.{IsSound, IsOpenOnOk, IsOfVersionOne, IsLaidOut, IsNewRecord, SavesAll, handlers_in, incs_in};

    /// Makes the tables in one transaction, beside the tables that the database has.
    ///
    /// Refused:
    /// - `Refused` if there is no room: a table, an index or a view has one of the four names, a foreign key names one,
    ///   no trees are left, an index lacks its table, or a counted table its sequence;
    /// - `Refused` if the connection is in a transaction, or a text is refused;
    /// - `OutOfMemory`.
    ///
    /// A refusal drops the connection. [`create_tables`], which this calls, says what it leaves.
    pub fn create(alloc: Global, mut conn: Connection<S>) -> Result<Store<S>, KeeperError>
        ensures made { IfOk result (λ store. IsSound (state S.Store store) → IsNewRecord (state S.Store conn).now (state S.Store store).now 2) }
        ensures is_open { IfOk result (λ store. HasCleanDisk (state S.Store store) → IsTrue (state S.Store store).is_open) }
        ensures room { OnOk result (HasRoom (state S.Store conn).now.schema record_names) }
        ensures other { ¬ HasRoom (state S.Store conn).now.schema record_names → result ≡ Err KeeperError.Refused }
        ensures taken { (name : List ℕ) → Has record_names name → ¬ IsFree (state S.Store conn).now.schema name → result ≡ Err KeeperError.Refused }
        ensures inside { IsTrue conn.in_transaction → result ≡ Err KeeperError.Refused }
        ensures sound { IfOk result (λ store. IsSound (state S.Store store) → IsSound (state S.Store conn)) }
        ensures named { IfErr result IsPutError }
        ensures survives { IfOk result (λ store. Survives (state S.Store conn) (state S.Store store) (λ trees. (db : Database)
            × IsNewRecord (state S.Store conn).now db 2 × (trees ≡ db.trees))) }
    {
        create_tables(&mut conn)?;
        Ok(Store { conn, alloc })
    }

    /// Adopts a database that has the tables. Tables of version 1 become those of version 2, in one transaction.
    ///
    /// Refused, with the database as it was:
    /// - `WrongSchema` if there is no version or another one, or a number in a table of version 1 is no handler's;
    /// - `BadImage` for the lowest handler whose image of version 1 is no state's;
    /// - `Refused` if the connection is in a transaction, the tables are not those of their version, or a text is
    ///   refused;
    /// - `OutOfMemory`.
    ///
    /// A refusal drops the connection. [`adopt_tables`], which this calls, says what it leaves.
    pub fn adopt(alloc: Global, mut conn: Connection<S>) -> Result<Store<S>, KeeperError>
        ensures is_open { IfOk result (λ store. HasCleanDisk (state S.Store store) → IsTrue (state S.Store conn).is_open) }
        ensures open_behind { IfOk result (λ store. HasCleanDisk (state S.Store store) → IsOfVersionOne (state S.Store conn).now
            → IsTrue (state S.Store store).is_open) }
        ensures adopted { IfOk result (λ store. IsSound (state S.Store store) → Adopts (state S.Store conn).now (state S.Store store).now) }
        ensures sound { IfOk result (λ store. IsSound (state S.Store store) → IsSound (state S.Store conn)) }
        ensures inside { IsTrue conn.in_transaction → result ≡ Err KeeperError.Refused }
        // A refusal drops the connection, so these ask for storage that is honest at every moment, as memory is. They
        // say nothing of a file: for that there is `adopt_tables`.
        ensures bad { ((held : Held S) → IsSound (state S.Store held)) → (handler : HandlerId) → result ≡ Err (KeeperError.BadImage handler)
            → IsLowestBad (state S.Store conn).now handler.0 }
        ensures wrong { ((held : Held S) → IsSound (state S.Store held)) → result ≡ Err KeeperError.WrongSchema → IsLaidOut (state S.Store conn).now
            → IsWrongSchema (state S.Store conn).now }
        ensures named { IfErr result IsAdoptError }
        ensures survives { IfOk result (λ store. Survives (state S.Store conn) (state S.Store store) (λ trees. (db : Database)
            × Migrates (state S.Store conn).now db × (trees ≡ db.trees))) }
    {
        adopt_tables(alloc, &mut conn)?;
        Ok(Store { conn, alloc })
    }

    /// Stores the states in turn, in one transaction: all of them, or none. Without states there is no transaction.
    ///
    /// Refused with nothing changed: `OutOfMemory`, `Refused`.
    pub fn put_all(&mut self, states: &[HandlerState]) -> Result<(), KeeperError>
        ensures is_open { states.now ≢ [] → IsOpenOnOk result (state S.Store self.new) (state S.Store self.new) }
        ensures stored { IsSound (state S.Store self.new) → OnOk result
            (Stays (Over states.now (handlers_in (state S.Store self.old).now)) (handlers_in (state S.Store self.new).now)) }
        ensures incarnations { IsSound (state S.Store self.new)
            → IsSame (incs_in (state S.Store self.old).now) (incs_in (state S.Store self.new).now) }
        ensures others { IsSound (state S.Store self.new) → OnOk result (KeepsOthers (handlers_tree (state S.Store self.old).now.schema
            ∷ pending_tree (state S.Store self.old).now.schema ∷ []) (state S.Store self.old).now (state S.Store self.new).now) }
        ensures refused { IsSound (state S.Store self.new) → OnErr result ((state S.Store self.new).now ≡ (state S.Store self.old).now) }
        ensures named { IfErr result IsPutError }
        ensures honest { IsSound (state S.Store self.new) → IsSound (state S.Store self.old) }
        // A crash leaves what it could leave before the call, or all of the states.
        ensures survives { Survives (state S.Store self.old) (state S.Store self.new) (λ trees. (db : Database)
            × SavesAll (state S.Store self.old).now db states.now × (trees ≡ db.trees)) }
    {
        if states.is_empty() {
            return Ok(());
        }
        handlers::write_states(self.alloc, &mut self.conn, states)
    }

    /// The connection under the store.
    pub fn into_connection(self) -> Connection<S>
        ensures { result ≡ self }
    {
        self.conn
    }
}

impl<S: Alter + Drop> Keeper<Global> for Store<S> {
    ghost use Rattle.sqlite.specs.Held.{state as seen};
    ghost use Rattle.sqlite.specs.Effect.{Database};
    ghost use Rattle.sqlite.specs.State.{HasCleanDisk, Survives};
    ghost use Rattle.scoop_keeper.specs.Keeper.{Damaged, Keeps, Stays, IsSame, IsTheOne, Sets, IsPutError, next_of, last_incarnation, stored_of};
    ghost use Rattle.scoop_record.specs.Store.{handlers_in, incs_in, IsSound, IsOpenOnOk, Advances, Saves};

    ghost handlers = { λ s. handlers_in (seen S.Store s).now };

    ghost incarnations = { λ s. incs_in (seen S.Store s).now };

    // Each call is a transaction of its own, so all that is stored is committed.
    ghost outlasting = { λ s. handlers_in (seen S.Store s).now };

    ghost is_honest = { λ s. IsSound (seen S.Store s) };

    // Ok means that the connection is open: after a put and before a load, which stores nothing. A connection that a fault
    // has shut refuses.
    ghost put_gives = { λ _ _ result after. IsOpenOnOk result (seen S.Store after) (seen S.Store after) };

    ghost load_gives = { λ before _ result after. IsOpenOnOk result (seen S.Store before) (seen S.Store after) };

    ghost next_gives = { λ _ _ result after. IsOpenOnOk result (seen S.Store after) (seen S.Store after) };

    fn put_handler(&mut self, state: &HandlerState) -> Result<(), KeeperError>
        ensures is_open { IsOpenOnOk result (seen S.Store self.new) (seen S.Store self.new) }
        ensures stored { IsSound (seen S.Store self.new)
            → OnOk result (Keeps (handlers_in (seen S.Store self.old).now) (handlers_in (seen S.Store self.new).now) state.now) }
        ensures incarnations { IsSound (seen S.Store self.new)
            → IsSame (incs_in (seen S.Store self.old).now) (incs_in (seen S.Store self.new).now) }
        ensures others { IsSound (seen S.Store self.new) → OnOk result (KeepsOthers (handlers_tree (seen S.Store self.old).now.schema
            ∷ pending_tree (seen S.Store self.old).now.schema ∷ []) (seen S.Store self.old).now (seen S.Store self.new).now) }
        ensures refused { IsSound (seen S.Store self.new)
            → OnErr result (Stays (handlers_in (seen S.Store self.old).now) (handlers_in (seen S.Store self.new).now)) }
        ensures named { IfErr result IsPutError }
        ensures honest { IsSound (seen S.Store self.new) → IsSound (seen S.Store self.old) }
        // A crash leaves what it could leave before the call, or the state for its handler.
        ensures survives { Survives (seen S.Store self.old) (seen S.Store self.new) (λ trees. (db : Database)
            × Saves (seen S.Store self.old).now db state.now × (trees ≡ db.trees)) }
    {
        let Ok((bytes, row)) = handlers::images_of(self.alloc, state) else {
            return Err(KeeperError::OutOfMemory);
        };
        handlers::write_state(
            &mut self.conn,
            state.handler().0,
            bytes.as_slice(),
            row.as_slice(),
        )
    }

    fn load_handler(&mut self, handler: HandlerId) -> Result<Option<HandlerState>, KeeperError>
        ensures is_open { IsOpenOnOk result (seen S.Store self.old) (seen S.Store self.new) }
        ensures loaded { HasCleanDisk (seen S.Store self.new)
            → IfOk result (λ found. IsTheOne (handlers_in (seen S.Store self.old).now handler.0) (stored_of found)) }
        ensures own { IfOk result (λ found. IfSome found (λ s. s.number ≡ handler)) }
        ensures bad { HasCleanDisk (seen S.Store self.new) → result ≡ Err (KeeperError.BadImage handler)
            → IsTheOne (handlers_in (seen S.Store self.old).now handler.0) Damaged }
        ensures named { IfErr result (λ e. IsPutError e ⊎ (e ≡ KeeperError.BadImage handler)) }
        ensures handlers { IsSound (seen S.Store self.new)
            → Stays (handlers_in (seen S.Store self.old).now) (handlers_in (seen S.Store self.new).now) }
        ensures incarnations { IsSound (seen S.Store self.new)
            → IsSame (incs_in (seen S.Store self.old).now) (incs_in (seen S.Store self.new).now) }
        ensures honest { IsSound (seen S.Store self.new) → IsSound (seen S.Store self.old) }
        // The whole database is as it was, and a crash leaves what it could leave before the call.
        ensures same { IsSound (seen S.Store self.new) → (seen S.Store self.new).now ≡ (seen S.Store self.old).now }
        ensures survives { Survives (seen S.Store self.old) (seen S.Store self.new) (λ _. ⊥) }
    {
        handlers::load(self.alloc, &mut self.conn, handler)
    }

    #[tactic(auto, unfolding(crate::specs::Store::incs_in))]
    fn next_incarnation(&mut self, client: ClientId) -> Result<u32, KeeperError>
        ensures is_open { IsOpenOnOk result (seen S.Store self.new) (seen S.Store self.new) }
        ensures next { IsSound (seen S.Store self.new) → IfOk result (λ inc. inc ≡ next_of (incs_in (seen S.Store self.old).now client.0)) }
        ensures stored { IsSound (seen S.Store self.new)
            → IfOk result (Sets (incs_in (seen S.Store self.old).now) (incs_in (seen S.Store self.new).now) client.0) }
        ensures others { IsSound (seen S.Store self.new) → OnOk result (KeepsOthers (clients_tree (seen S.Store self.old).now.schema ∷ [])
            (seen S.Store self.old).now (seen S.Store self.new).now) }
        ensures spent { IsSound (seen S.Store self.new) → result ≡ Err KeeperError.IncarnationsSpent
            → incs_in (seen S.Store self.old).now client.0 ≡ Some last_incarnation }
        ensures refused { IsSound (seen S.Store self.new)
            → OnErr result (IsSame (incs_in (seen S.Store self.old).now) (incs_in (seen S.Store self.new).now)) }
        ensures named { IfErr result (λ e. IsPutError e ⊎ (e ≡ KeeperError.IncarnationsSpent)) }
        ensures handlers { IsSound (seen S.Store self.new)
            → Stays (handlers_in (seen S.Store self.old).now) (handlers_in (seen S.Store self.new).now) }
        ensures honest { IsSound (seen S.Store self.new) → IsSound (seen S.Store self.old) }
        // A crash leaves what it could leave before the call, or the next incarnation.
        ensures survives { Survives (seen S.Store self.old) (seen S.Store self.new) (λ trees. (db : Database)
            × Advances (seen S.Store self.old).now db client.0 × (trees ≡ db.trees)) }
    {
        clients::advance(&mut self.conn, client.0)
    }

    fn commit(&mut self) -> Result<(), KeeperError>
        ensures ok { OnOk result (self.new ≡ self.old) }
        ensures never { OnErr result ⊥ }
    {
        Ok(())
    }
}
