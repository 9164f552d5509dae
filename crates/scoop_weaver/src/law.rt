//! Theorems on an order of running nodes and clients.

ghost use Rattle.std.specs.Prelude.{◌≡◌, ◌++◌, ◌∷◌, [], ℕ, List};
ghost use Rattle.scoop_book.specs.Moves.{Entry};
ghost use Rattle.scoop_driver.specs.declared.step.Step.{Step as Made};
ghost use Rattle.scoop_model.specs.Opening.{MayOpen};
ghost use Rattle.scoop_weave.specs.Lives.{NodeLife, ClientLife, newcomers_of, placements_of};
ghost use Rattle.scoop_weaver.specs.declared.traffic.Traffic.{Traffic as Move};
ghost use Rattle.scoop_weave.specs.System.{LocalClient, after_restart};
ghost use Rattle.scoop_weaver.specs.Passing.{AreLives, IsOfWorld, by_client, by_node, last_client, silent, traffic_by};
ghost use Rattle.scoop_weaver.specs.Weaving.{IsWoven};

/// If each node's histories replay, as `close` promises, and each client's steps can be made, as the driver promises,
/// then an order that [`weave`](crate::weave) finds of their traffic is that of a world. So all promises for a world hold
/// of these nodes and clients.
pub fn woven_is_a_world()
    ensures { (nodes : List NodeLife) (clients : List ClientLife) (order : List (ℕ × Move)) → MayOpen (placements_of nodes) (newcomers_of clients)
        → AreLives nodes clients → IsWoven (traffic_by nodes clients) order → IsOfWorld nodes clients order }
{}

/// A node's traffic in its histories and one more is that of these, a reopening, and that of the further one. So
/// [`begin_anew`](crate::Party::begin_anew) turns the party of some histories into that of one more.
pub fn one_more_history()
    ensures { (number : ℕ) (first : List Entry) (more : List (List Entry)) (next : List Entry)
        → by_node number first (more ++ next ∷ []) ≡ by_node number first more ++ silent ∷ by_node number next [] }
{}

/// The same for a client, whose next driver begins with the client as it restarts.
pub fn one_more_driver()
    ensures { (client : LocalClient) (first : List Made) (more : List (List Made)) (next : List Made)
        → by_client client first (more ++ next ∷ [])
        ≡ by_client client first more ++ silent ∷ by_client (after_restart (last_client client first more)) next [] }
{}
