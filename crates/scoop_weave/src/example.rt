//! A run that is computed.

ghost use Rattle.std.specs.Prelude.{◌≡◌, [], ◌∷◌, map};
ghost use Rattle.scoop_weave.specs.Example.{joint_block, next_block, node, order, party};
ghost use Rattle.scoop_weave.specs.Histories.{joint_by};
ghost use Rattle.scoop_weave.specs.Lives.{Runs, newcomers_of, placements_of, system_of};
ghost use Rattle.scoop_weave.specs.Weave.{IsWorld};

/// A node that closes and opens again and a client that restarts are a run, and so a world: the premises of
/// [`running_is_a_world`](crate::running_is_a_world) can be met.
///
/// Both blocks opened, the joint one first. Handler 1 has the word that was logged before the node closed. Handler 2 has
/// the one that it received afterwards and ran after the client's restart.
pub fn example_runs()
    ensures runs { Runs (node ∷ []) (party ∷ []) order }
    ensures world { IsWorld (placements_of (node ∷ [])) (newcomers_of (party ∷ [])) (map (λ x. x.1) order) (system_of (node ∷ []) (party ∷ [])) }
    ensures blocks { joint_by (map (λ x. x.1) order) ≡ joint_block ∷ next_block ∷ [] }
    ensures words { map (λ s. s.core.state.words) node.now ≡ (5 ∷ []) ∷ (6 ∷ []) ∷ [] }
{}
