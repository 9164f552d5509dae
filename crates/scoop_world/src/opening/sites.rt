//! The handlers with which a world opens.

ghost use Rattle.std.specs.Prelude.{◌≡◌, map, IfOk, OnOk};
ghost use Rattle.std.specs.List.{AllByRecursion};
ghost use Rattle.scoop_model.specs.World.{number_of};
ghost use Rattle.scoop_model.specs.Step.{new_site};
ghost use Rattle.scoop_message.specs.Lists.{NoRepeats};
ghost use Rattle.scoop_world.specs.Kept.{HasState};
ghost use Rattle.scoop_model.specs.Opening.{IsPlaced};
ghost use Rattle.scoop_world.specs.Placing.{placement_of, placements_of};

use crate::placing::Placement;
use crate::site::Site;
use scoop_handler::Handler;
use scoop_keeper::MemoryKeeper;
use scoop_message::{HandlerId, OutOfMemory};
use scoop_object::Behaviour;
use std::alloc::Allocator;

// The numbers of the handlers, in their order.
pub(crate) fn numbers<B: Behaviour, A: Allocator + Copy>(
    alloc: A,
    placements: &[Placement<B>],
) -> Result<Vec<HandlerId, A>, OutOfMemory>
    ensures { IfOk result (λ hs. hs.items ≡ map (λ p. p.handler) placements.now) }
{
    let mut handlers = Vec::new(alloc);
    for placement in placements {
        handlers.push(placement.handler)?;
    }
    Ok(handlers)
}

// The handler as it is placed. Its object has the class.
fn place<B: Behaviour, A: Allocator + Copy>(alloc: A, placement: Placement<B>) -> Site<B, A>
    requires { B.class placement.object ≡ placement.class }
    ensures site { result ≡ new_site (placement_of B.words placement) }
    ensures placed { IsPlaced (placement_of B.words placement) }
{
    let Placement {
        node,
        handler,
        class,
        object,
    } = placement;
    let Ok(handler) = Handler::new(alloc, handler, class, object) else {
        unreachable!()
    };
    // For the prover: the handler is sound.
    let _number = handler.number();
    Site::new(alloc, node, handler)
}

/// The handlers as they are placed.
pub(crate) fn place_all<B: Behaviour, A: Allocator + Copy>(
    alloc: A,
    placements: Vec<Placement<B>>,
) -> Result<Vec<Site<B, A>, A>, OutOfMemory>
    requires { AllByRecursion (λ p. B.class p.object ≡ p.class) placements.items }
    ensures sites { IfOk result (λ ss. ss.items ≡ map new_site (placements_of B.words placements.items)) }
    ensures placed { OnOk result (AllByRecursion IsPlaced (placements_of B.words placements.items)) }
{
    let mut sites = Vec::new(alloc);
    for placement in placements {
        let site = place(alloc, placement);
        sites.push(site)?;
    }
    Ok(sites)
}

/// Stores the state of each handler.
pub(crate) fn store_all<B: Behaviour, A: Allocator + Copy>(
    sites: &[Site<B, A>],
    keeper: &mut MemoryKeeper<A>,
) -> Result<(), OutOfMemory>
    requires apart { NoRepeats (map number_of sites.now) }
    requires own { AllByRecursion (λ s. s.stored.number ≡ number_of s) sites.now }
    ensures states { OnOk result (AllByRecursion (HasState keeper.new) sites.now) }
    ensures incarnations { keeper.new.incarnations ≡ keeper.old.incarnations }
{
    for site in sites {
        site.store(keeper)?;
    }
    Ok(())
}
