//! Theorems about locks over a whole list of events.

ghost use Rattle.std.specs.Prelude.{◌≡◌, ℕ, List};
ghost use Rattle.scoop_message.specs.declared.name.Block.{Block};
ghost use Rattle.scoop_message.specs.declared.name.HandlerId.{HandlerId};
ghost use Rattle.scoop_model.specs.declared.event.Event.{Event as WorldEvent};
ghost use Rattle.scoop_model.specs.World.{World};
ghost use Rattle.scoop_model.specs.Step.{Placement, Newcomer, opening};
ghost use Rattle.scoop_model.specs.Reach.{Leads};
ghost use Rattle.scoop_model.specs.Grants.{GrantsAt, OpensAt, HoldsSinceGrant};

/// Over any list of events from a world that opens, a handler grants its lock to a block at most once.
pub fn granted_once()
    ensures { (placements : List Placement) (newcomers : List Newcomer) (events : List WorldEvent) (w : World)
        → Leads (opening placements newcomers) events w → (i j : ℕ) (h : HandlerId) (b : Block) → GrantsAt (opening placements newcomers) events i h b
        → GrantsAt (opening placements newcomers) events j h b → i ≡ j }
{}

/// Over any list of events from a world that opens, a block that opens at a handler was granted the lock there by an
/// earlier event. From that event on it was the holder, without a break.
pub fn held_until_opened()
    ensures { (placements : List Placement) (newcomers : List Newcomer) (events : List WorldEvent) (w : World)
        → Leads (opening placements newcomers) events w → (j : ℕ) (h : HandlerId) (b : Block) → OpensAt (opening placements newcomers) events j h b
        → HoldsSinceGrant (opening placements newcomers) events j h b }
{}
