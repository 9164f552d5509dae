//! A keeper that is watched.

ghost use Rattle.std.specs.Prelude.{◌≡◌, ◌⊎◌, Some, IfSome, IfOk, IfErr, OnOk, OnErr};

use crate::watch::Watch;
use scoop_handler::{HandlerState, Heard};
use scoop_keeper::{Keeper, KeeperError};
use scoop_message::{ClientId, HandlerId, Message};
use std::alloc::Global;
use std::marker::Model;
use std::sync::Wait;

/// A keeper that passes every call on to the one under it, and notes it in a watch. All that it returns and stores
/// comes from that keeper alone. Contracts see the keeper under it.
#[derive(Drop)]
pub struct WatchedKeeper<'a, K, R> {
    keeper: K,
    rt: &'a R,
    watch: &'a Watch,
}

impl<'a, K, R> Model for WatchedKeeper<'a, K, R> {
    ghost Value = { K };

    ghost view = { λ w. w.keeper };
}

impl<'a, K: Drop, R: Wait> WatchedKeeper<'a, K, R> {
    /// Watches this keeper.
    pub fn new(keeper: K, rt: &'a R, watch: &'a Watch) -> WatchedKeeper<'a, K, R>
        ensures { result ≡ keeper }
    {
        WatchedKeeper { keeper, rt, watch }
    }

    /// The keeper under this one.
    pub fn into_inner(self) -> K
        ensures { result ≡ self.entry }
    {
        self.keeper
    }
}

impl<'a, K: Keeper<Global>, R: Wait> Keeper<Global> for WatchedKeeper<'a, K, R> {
    ghost use Rattle.scoop_keeper.specs.Keeper.{Damaged, stored_of, IsTheOne, Stays, Keeps, IsSame, Sets, next_of, last_incarnation, IsPutError};

    ghost handlers = { λ w. K.handlers w };

    ghost incarnations = { λ w. K.incarnations w };

    ghost outlasting = { λ w. K.outlasting w };

    ghost is_honest = { λ w. K.is_honest w };

    ghost put_gives = { λ old state result new. K.put_gives old state result new };

    ghost load_gives = { λ old handler result new. K.load_gives old handler result new };

    ghost next_gives = { λ old client result new. K.next_gives old client result new };

    fn put_handler(&mut self, state: &HandlerState) -> Result<(), KeeperError> {
        let stored = self.keeper.put_handler(state);
        self.watch.put(self.rt, state, stored);
        stored
    }

    fn load_handler(&mut self, handler: HandlerId) -> Result<Option<HandlerState>, KeeperError> {
        let loaded = self.keeper.load_handler(handler);
        if let Ok(Some(state)) = &loaded {
            self.watch.load(self.rt, state);
        }
        loaded
    }

    fn next_incarnation(&mut self, client: ClientId) -> Result<u32, KeeperError> {
        self.keeper.next_incarnation(client)
    }

    fn commit(&mut self) -> Result<(), KeeperError> {
        let committed = self.keeper.commit();
        if let Err(error) = committed {
            self.watch.refuse_commit(self.rt, error);
        }
        committed
    }

    fn note_heard(&mut self, message: &Message, heard: &Heard) -> Result<(), KeeperError> {
        let noted = self.keeper.note_heard(message, heard);
        if noted.is_ok() {
            self.watch.hear(self.rt, message, heard);
        }
        noted
    }

    fn note_finished(&mut self, handler: HandlerId) -> Result<(), KeeperError> {
        let noted = self.keeper.note_finished(handler);
        if noted.is_ok() {
            self.watch.run(self.rt);
        }
        noted
    }
}
