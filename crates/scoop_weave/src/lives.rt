//! The lives of nodes and clients: histories of books and steps of drivers.

ghost use Rattle.std.specs.Prelude.{ℕ, List, map};
ghost use Rattle.scoop_message.specs.declared.name.HandlerId.{HandlerId};
ghost use Rattle.scoop_model.specs.Opening.{MayOpen};
ghost use Rattle.scoop_book.specs.Moves.{LocalHandler, Entry, Replays};
ghost use Rattle.scoop_driver.specs.declared.step.Step.{Step};
ghost use Rattle.scoop_driver.specs.Steps.{AllCan};
ghost use Rattle.scoop_weave.specs.System.{LocalClient};
ghost use Rattle.scoop_weave.specs.Moves.{LocalMove};
ghost use Rattle.scoop_weave.specs.Parties.{ClientRuns};
ghost use Rattle.scoop_weave.specs.Nodes.{NodeRuns};
ghost use Rattle.scoop_weave.specs.Weave.{IsWorld};
ghost use Rattle.scoop_weave.specs.NodeHistories.{local_of, move_in};
ghost use Rattle.scoop_weave.specs.ClientSteps.{driven, moves_by};
ghost use Rattle.scoop_weave.specs.Lives.{NodeLife, ClientLife, Runs, placements_of, newcomers_of, system_of};

/// The entries of a history that replays, as that of every closed node does, are moves of the node, and lead its handlers
/// where the history leads them.
pub fn histories_move()
    ensures { (words : HandlerId → List ℕ) (number : ℕ) (opening : List LocalHandler) (history : List Entry) (handlers : List LocalHandler)
        → Replays opening history handlers → NodeRuns (map (local_of words number) opening) (map move_in history) (map (local_of words number) handlers) }
{}

/// The steps of a driver, its commands and its turns, are moves of its client, and lead it where the steps lead it.
pub fn drivers_move()
    ensures { (client : LocalClient) (steps : List Step) → AllCan client.client steps → ClientRuns client (moves_by client.client steps) (driven client steps) }
{}

/// The promise for running nodes and clients. It supposes three things:
/// - the histories of each node replay, as its book and `close` promise, and each further one opens with the states stored
///   last;
/// - the steps of each client's drivers can be made, as the driver promises, and each further driver begins with the next
///   incarnation;
/// - one order of all of it has each message sent before it is heard. Nothing else is asked of the network.
///
/// Then all of it happens in a world. Handlers open their blocks in the order of one common list, run the logged entries
/// block after block, and answer right. All of it is a run of the written rules.
pub fn running_is_a_world()
    ensures { (nodes : List NodeLife) (clients : List ClientLife) (order : List (ℕ × LocalMove)) → MayOpen (placements_of nodes) (newcomers_of clients)
        → Runs nodes clients order → IsWorld (placements_of nodes) (newcomers_of clients) (map (λ x. x.1) order) (system_of nodes clients) }
{}
