//! Theorems about the world after any list of events.

ghost use Rattle.std.specs.Prelude.{◌≡◌, true, List, Some};
ghost use Rattle.std.specs.List.{AllByRecursion};
ghost use Rattle.scoop_message.specs.declared.name.Block.{Block};
ghost use Rattle.scoop_message.specs.declared.name.HandlerId.{HandlerId};
ghost use Rattle.scoop_model.specs.declared.event.Event.{Event as WorldEvent};
ghost use Rattle.scoop_model.specs.Step.{Placement, Newcomer, opening};
ghost use Rattle.scoop_model.specs.Reach.{steps};
ghost use Rattle.scoop_model.specs.World.{World, handlers_of, has_block};
ghost use Rattle.scoop_model.specs.Opening.{MayOpen};
ghost use Rattle.scoop_model.specs.Safe.{InOrder};
ghost use Rattle.scoop_handler.specs.Core.{IsCore};

/// The handlers of a block stay those that its reserve named, whatever happens.
pub fn handlers_stay()
    ensures { (w : World) (events : List WorldEvent) (b : Block) (hs : List HandlerId) → handlers_of b w ≡ Some hs → handlers_of b (steps w events) ≡ Some hs }
{}

/// Every block that opened at a handler stands in the common list.
pub fn opened_in_joint()
    ensures { (placements : List Placement) (newcomers : List Newcomer) (events : List WorldEvent)
        → AllByRecursion (λ s. (b : Block) → has_block s.opened b ≡ true
        → has_block (steps (opening placements newcomers) events).joint b ≡ true) (steps (opening placements newcomers) events).sites }
{}

/// After any list of events, each handler has opened its blocks in the order of one common list, in which no
/// block stands twice.
pub fn in_order()
    ensures { (placements : List Placement) (newcomers : List Newcomer) (events : List WorldEvent) → InOrder (steps (opening placements newcomers) events) }
{}

/// The state of every handler is sound, and has as many words as its class says. A job is out only for an entry that
/// is pending.
pub fn handlers_sound()
    ensures { (placements : List Placement) (newcomers : List Newcomer) (events : List WorldEvent) → MayOpen placements newcomers
        → AllByRecursion (λ s. IsCore s.core) (steps (opening placements newcomers) events).sites }
{}
