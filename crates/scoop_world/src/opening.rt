//! The opening of a world.

ghost use Rattle.std.specs.Prelude.{◌≡◌, IfErr, IfOk, OnOk};
ghost use Rattle.std.specs.List.{AllByRecursion};
ghost use Rattle.scoop_keeper.specs.Memory.{incarnation_at};
ghost use Rattle.scoop_model.specs.Step.{opening};
ghost use Rattle.scoop_world.specs.Placing.{IsBatched, newcomers_of, placements_of};
ghost use Rattle.scoop_model.specs.Opening.{IsJoining};
ghost use Rattle.scoop_world.specs.OpenRefusal.{IsUnopened, MayPlace, handlers_of};
ghost use Rattle.scoop_rules.specs.Paper.{configuration_of, empty_configuration};
ghost use Rattle.scoop_model.specs.World.{inc_of};
ghost use Rattle.scoop_model.specs.Safe.{Safe};

mod joining;
mod refusing;
mod sites;

use crate::error::WorldOpenError;
use crate::parts::Parts;
use crate::placing::Placement;
use crate::world::World;
use joining::join_all;
use refusing::refusal;
use scoop_keeper::MemoryKeeper;
use scoop_message::ClientId;
use scoop_object::Behaviour;
use sites::{numbers, place_all, store_all};
use std::alloc::Allocator;

impl<B: Behaviour, A: Allocator + Copy> World<B, A> {
    /// Opens a world with these handlers and these clients. A client comes with the most entries of one of its
    /// Logs, 1 to 4. Every client knows all handlers, and greets in its next incarnation. The keeper stores each
    /// state and each incarnation. Nothing has happened yet: the world is safe, and stands for the configuration
    /// of the written rules in which nothing was reserved and nothing has run.
    ///
    /// Refused, in this order: `NoHandlers`, `TooManyHandlers` above `MAX_HANDLERS`, `Repeated`, `WrongClass`,
    /// `TooManyClients` above `MAX_CLIENTS`, `RepeatedClient`, `IncarnationsSpent`, `OutOfMemory`. If memory is
    /// refused before the incarnations are read, `OutOfMemory` comes even if one of them is the last.
    pub fn open(
        alloc: A,
        placements: Vec<Placement<B>>,
        clients: &[(ClientId, u8)],
        mut keeper: MemoryKeeper<A>,
    ) -> Result<World<B, A>, WorldOpenError>
        requires { AllByRecursion IsBatched clients.now }
        ensures opens { IfOk result (λ w. w ≡ opening (placements_of B.words placements.items)
            (newcomers_of (handlers_of placements.items) (incarnation_at keeper) clients.now)) }
        ensures safe { IfOk result Safe }
        ensures empty { IfOk result (λ w. configuration_of w ≡ empty_configuration (inc_of w)) }
        ensures placed { OnOk result (MayPlace B.class placements.items clients.now) }
        ensures joining { OnOk result (AllByRecursion IsJoining (newcomers_of (handlers_of placements.items) (incarnation_at keeper) clients.now)) }
        ensures refused { IfErr result (IsUnopened B.class placements.items clients.now (incarnation_at keeper)) }
    {
        if let Some(error) = refusal(&placements, clients) {
            return Err(error);
        }
        let handlers = numbers(alloc, &placements)?;
        let sites = place_all(alloc, placements)?;
        let parties = match join_all(alloc, clients, &handlers, &mut keeper) {
            Ok(parties) => parties,
            Err(error) => return Err(error),
        };
        let Ok(()) = store_all(&sites, &mut keeper) else {
            return Err(WorldOpenError::OutOfMemory);
        };
        Ok(World {
            parts: Parts::new(alloc, sites, parties, keeper),
        })
    }
}
