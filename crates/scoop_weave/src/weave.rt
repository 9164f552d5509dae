//! Nodes and clients that run side by side.

ghost use Rattle.std.specs.Prelude.{List};
ghost use Rattle.scoop_model.specs.declared.event.Event.{Event as WorldEvent};
ghost use Rattle.scoop_model.specs.Step.{Placement, Newcomer, opening};
ghost use Rattle.scoop_model.specs.Reach.{steps};
ghost use Rattle.scoop_model.specs.Opening.{MayOpen};
ghost use Rattle.scoop_weave.specs.System.{System};
ghost use Rattle.scoop_weave.specs.Moves.{LocalMove};
ghost use Rattle.scoop_weave.specs.Parties.{IsWoven};
ghost use Rattle.scoop_weave.specs.Nodes.{IsWovenOfNodes};
ghost use Rattle.scoop_weave.specs.Weave.{Weave, IsWorld, IsOfWeave};

/// If each handler's and each client's own moves lead it from how it opens to how it is now, and each message that is
/// heard was sent before, then all moves one after another lead the whole system there.
pub fn woven_is_a_weave()
    ensures { (placements : List Placement) (newcomers : List Newcomer) (moves : List LocalMove) (now : System) → MayOpen placements newcomers
        → IsWoven placements newcomers moves now → Weave placements newcomers moves now }
{}

/// Handlers and clients that act each alone, in any order in which a message is heard only after it was sent, act as in a
/// world. So their histories are safe, and a run of the written rules.
pub fn weave_is_a_world()
    ensures { (placements : List Placement) (newcomers : List Newcomer) (moves : List LocalMove) (now : System) → MayOpen placements newcomers
        → Weave placements newcomers moves now → IsWorld placements newcomers moves now }
{}

/// Nothing is left out: every world that events lead to is that of a weave.
pub fn world_is_of_a_weave()
    ensures { (placements : List Placement) (newcomers : List Newcomer) (events : List WorldEvent) → MayOpen placements newcomers
        → IsOfWeave placements newcomers (steps (opening placements newcomers) events) }
{}

/// If a node's own list leads its handlers, one at a time and all of them at a restart, then each handler's part of the
/// list leads that handler.
pub fn nodes_are_woven()
    ensures { (placements : List Placement) (newcomers : List Newcomer) (moves : List LocalMove) (now : System) → MayOpen placements newcomers
        → IsWovenOfNodes placements newcomers moves now → IsWoven placements newcomers moves now }
{}

/// The promise for a running system. Each node and each client has its own list of moves, restarts among them, and one
/// list has all of them, with each message sent before it is heard. Whatever the network lost, repeated, delayed or
/// brought to the wrong party, handlers open their blocks in the order of one common list. They run the logged entries
/// block after block and answer right. All of it is a run of the written rules.
pub fn system_is_a_world()
    ensures { (placements : List Placement) (newcomers : List Newcomer) (moves : List LocalMove) (now : System) → MayOpen placements newcomers
        → IsWovenOfNodes placements newcomers moves now → IsWorld placements newcomers moves now }
{}
