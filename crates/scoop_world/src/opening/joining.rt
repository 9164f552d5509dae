//! The clients with which a world opens.

ghost use Rattle.std.specs.Prelude.{◌≡◌, ◌⊎◌, Some, map, IfErr, IfOk, OnOk};
ghost use Rattle.std.specs.List.{All, AllByRecursion, Any};
ghost use Rattle.scoop_keeper.specs.Keeper.{Sets, last_incarnation, next_of};
ghost use Rattle.scoop_keeper.specs.Memory.{incarnation_at};
ghost use Rattle.scoop_world.specs.Kept.{HasIncarnation};
ghost use Rattle.scoop_world.specs.Placing.{IsBatched, newcomer_of, newcomers_of};
ghost use Rattle.scoop_model.specs.Opening.{IsJoining};
ghost use Rattle.scoop_message.specs.Lists.{NoRepeats};
ghost use Rattle.scoop_model.specs.Step.{new_party};

use crate::error::WorldOpenError;
use crate::party::Party;
use scoop_keeper::{Keeper, KeeperError, MemoryKeeper};
use scoop_message::{ClientId, HandlerId};
use std::alloc::Allocator;

// One client in its next incarnation, which is stored.
fn join<A: Allocator + Copy>(
    alloc: A,
    client: &(ClientId, u8),
    handlers: &[HandlerId],
    keeper: &mut MemoryKeeper<A>,
) -> Result<Party<A>, WorldOpenError>
    requires { IsBatched client.now }
    ensures party { IfOk result (λ p. p ≡ new_party (newcomer_of handlers.now (incarnation_at keeper.old) client.now)) }
    ensures joining { OnOk result (IsJoining (newcomer_of handlers.now (incarnation_at keeper.old) client.now)) }
    ensures stored { OnOk result
        (Sets (incarnation_at keeper.old) (incarnation_at keeper.new) client.now.0.0 (next_of (incarnation_at keeper.old client.now.0.0))) }
    ensures states { keeper.new.states ≡ keeper.old.states }
    ensures refused { IfErr result (λ e. (e ≡ WorldOpenError.OutOfMemory) ⊎ ((e ≡ WorldOpenError.IncarnationsSpent)
        × (incarnation_at keeper.old client.now.0.0 ≡ Some last_incarnation))) }
{
    let (id, batch) = *client;
    let inc = match keeper.next_incarnation(id) {
        Ok(inc) => inc,
        Err(KeeperError::IncarnationsSpent) => return Err(WorldOpenError::IncarnationsSpent),
        Err(_) => return Err(WorldOpenError::OutOfMemory),
    };
    Ok(Party::new(alloc, id, inc, handlers, batch)?)
}

/// The clients, each in its next incarnation, which is stored.
pub(crate) fn join_all<A: Allocator + Copy>(
    alloc: A,
    clients: &[(ClientId, u8)],
    handlers: &[HandlerId],
    keeper: &mut MemoryKeeper<A>,
) -> Result<Vec<Party<A>, A>, WorldOpenError>
    requires batched { All IsBatched clients.now }
    requires apart { NoRepeats (map (λ c. c.0) clients.now) }
    ensures parties { IfOk result (λ ps. ps.items ≡ map new_party (newcomers_of handlers.now (incarnation_at keeper.old) clients.now)) }
    ensures joining { OnOk result (AllByRecursion IsJoining (newcomers_of handlers.now (incarnation_at keeper.old) clients.now)) }
    ensures stored { IfOk result (λ ps. AllByRecursion (HasIncarnation keeper.new) ps.items) }
    ensures states { keeper.new.states ≡ keeper.old.states }
    ensures refused { IfErr result (λ e. (e ≡ WorldOpenError.OutOfMemory) ⊎ ((e ≡ WorldOpenError.IncarnationsSpent)
        × Any (λ c. incarnation_at keeper.old c.0.0 ≡ Some last_incarnation) clients.now)) }
{
    let mut parties = Vec::new(alloc);
    for client in clients {
        let party = join(alloc, client, handlers, keeper)?;
        parties.push(party)?;
    }
    Ok(parties)
}
