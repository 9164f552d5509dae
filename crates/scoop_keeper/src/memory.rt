//! A keeper in memory.

ghost use Rattle.std.specs.Prelude.{◌≡◌, ◌↔◌, ◌⊎◌, ℕ, Some, Err, [], IfSome, IfOk, IfErr, OnOk, OnErr};
ghost use Rattle.scoop_keeper.specs.Memory.{Puts};

use crate::keeper::{Keeper, KeeperError};
use scoop_handler::HandlerState;
use scoop_message::{ClientId, HandlerId, OutOfMemory};
use std::alloc::{Allocator, Global};
use std::collections::BTreeMap;
use std::marker::Model;

/// Keeps copies of the states in memory, each by the allocator of the state, and is always honest.
#[derive(Drop)]
pub struct MemoryKeeper<A: Allocator = Global> {
    states: BTreeMap<u32, HandlerState<A>, A>,
    incarnations: BTreeMap<u32, u32, A>,
}

impl<A: Allocator> Model for MemoryKeeper<A> {
    ghost use Rattle.std.specs.Prelude.{◌≡◌, ℕ, IfSome};
    ghost use Rattle.scoop_keeper.specs.Memory.{MemoryRecord, memory_record, state_at};

    ghost Value = { MemoryRecord };

    ghost view = { λ k. memory_record k.states.entries k.incarnations.entries };

    ghost invariant = { λ k. (handler : ℕ) → IfSome (state_at (memory_record k.states.entries k.incarnations.entries) handler) (λ s. s.number.0 ≡ handler) };
}

impl<A: Allocator + Copy> MemoryKeeper<A> {
    ghost use Rattle.scoop_keeper.specs.Memory.{memory_record, incarnation_at};
    ghost use Rattle.scoop_keeper.specs.Keeper.{Sets};

    /// A keeper with nothing stored.
    pub fn new(alloc: A) -> MemoryKeeper<A>
        ensures { result ≡ memory_record [] [] }
    {
        MemoryKeeper {
            states: BTreeMap::new(alloc),
            incarnations: BTreeMap::new(alloc),
        }
    }

    /// The keeper with this stored incarnation of the client. `OutOfMemory` is the one refusal.
    pub fn with_incarnation(
        mut self,
        client: ClientId,
        inc: u32,
    ) -> Result<MemoryKeeper<A>, OutOfMemory>
        ensures stored { IfOk result (λ keeper. Sets (incarnation_at self) (incarnation_at keeper) client.0 inc) }
        ensures states { IfOk result (λ keeper. keeper.states ≡ self.states) }
    {
        self.incarnations.insert(client.0, inc)?;
        Ok(self)
    }
}

// Keeps a copy of the state for its handler, in the room of the earlier one if there is one. An `Err` changes nothing.
fn keep<A: Allocator + Copy>(
    states: &mut BTreeMap<u32, HandlerState<A>, A>,
    state: &HandlerState<A>,
) -> Result<(), OutOfMemory>
    ensures ok { OnOk result (Puts states.old.entries states.new.entries state.now) }
    ensures err { OnErr result (states.new.entries ≡ states.old.entries) }
{
    let handler = state.handler();
    if let Some(kept) = states.get_mut(&handler.0) {
        return kept.copy_from(state);
    }
    let copy = state.copy()?;
    match states.insert(handler.0, copy) {
        Ok(_) => Ok(()),
        Err(_) => Err(OutOfMemory),
    }
}

impl<A: Allocator + Copy> Keeper<A> for MemoryKeeper<A> {
    ghost use Rattle.scoop_keeper.specs.declared.keeper.KeeperError.{KeeperError};
    ghost use Rattle.scoop_keeper.specs.Memory.{Has, state_at, incarnation_at};
    ghost use Rattle.scoop_keeper.specs.Keeper.{Keeps, Sets, next_of, last_incarnation};

    ghost handlers = { Has };

    ghost incarnations = { incarnation_at };

    ghost outlasting = { Has };

    ghost is_honest = { λ _. Unit {0} };

    // This keeper refuses only when it is out of memory, and an incarnation exactly when the last one is stored. Stated
    // here too, so that it is known of a keeper that passes calls on to this one.
    ghost put_gives = { λ _ _ result _. IfErr result (λ e. e ≡ KeeperError.OutOfMemory) };

    ghost load_gives = { λ _ _ result _. IfErr result (λ e. e ≡ KeeperError.OutOfMemory) };

    ghost next_gives = { λ k client result _. IfErr result (λ e. (e ≡ KeeperError.OutOfMemory) ⊎ (e ≡ KeeperError.IncarnationsSpent))
        × ((result ≡ Err KeeperError.IncarnationsSpent) ↔ (incarnation_at k client.0 ≡ Some last_incarnation)) };

    fn put_handler(&mut self, state: &HandlerState<A>) -> Result<(), KeeperError>
        ensures stored { OnOk result (Keeps (Has self.old) (Has self.new) state.now) }
        ensures incarnations { self.new.incarnations ≡ self.old.incarnations }
        ensures refused { OnErr result (self.new ≡ self.old) }
        ensures named { IfErr result (λ e. e ≡ KeeperError.OutOfMemory) }
    {
        // Shows the prover the state's number.
        let _handler = state.handler();
        keep(&mut self.states, state)?;
        Ok(())
    }

    fn load_handler(&mut self, handler: HandlerId) -> Result<Option<HandlerState<A>>, KeeperError>
        ensures loaded { IfOk result (λ found. found ≡ state_at self.old handler.0) }
        ensures own { IfOk result (λ found. IfSome found (λ s. s.number ≡ handler)) }
        ensures named { IfErr result (λ e. e ≡ KeeperError.OutOfMemory) }
        ensures same { self.new ≡ self.old }
    {
        match self.states.get(&handler.0) {
            Some(state) => Ok(Some(state.copy()?)),
            None => Ok(None),
        }
    }

    fn next_incarnation(&mut self, client: ClientId) -> Result<u32, KeeperError>
        ensures next { IfOk result (λ inc. inc ≡ next_of (incarnation_at self.old client.0)) }
        ensures stored { IfOk result (Sets (incarnation_at self.old) (incarnation_at self.new) client.0) }
        ensures states { self.new.states ≡ self.old.states }
        ensures spent { (result ≡ Err KeeperError.IncarnationsSpent) ↔ (incarnation_at self.old client.0 ≡ Some last_incarnation) }
        ensures refused { OnErr result (self.new ≡ self.old) }
        ensures named { IfErr result (λ e. (e ≡ KeeperError.OutOfMemory) ⊎ (e ≡ KeeperError.IncarnationsSpent)) }
    {
        let stored = self.incarnations.get(&client.0).copied().unwrap_or(0);
        let Some(next) = stored.checked_add(1) else {
            return Err(KeeperError::IncarnationsSpent);
        };
        match self.incarnations.insert(client.0, next) {
            Ok(_) => Ok(next),
            Err(_) => Err(KeeperError::OutOfMemory),
        }
    }

    fn commit(&mut self) -> Result<(), KeeperError>
        ensures ok { OnOk result (self.new ≡ self.old) }
        ensures never { OnErr result ⊥ }
    {
        Ok(())
    }
}
