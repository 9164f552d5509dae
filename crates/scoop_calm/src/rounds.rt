//! The number of fair rounds that lead to a calm world.

ghost use Rattle.std.specs.Prelude.{ℕ, ◌≤◌};
ghost use Rattle.scoop_model.specs.World.{World};
ghost use Rattle.scoop_model.specs.Reach.{IsReached};
ghost use Rattle.scoop_calm.specs.Bound.{left};
ghost use Rattle.scoop_calm.specs.Rounds.{Rounds};
ghost use Rattle.scoop_calm.specs.Settling.{Calm};

/// Every fair way leads to a calm world, and `left` rounds are enough. A round does all that was open at its start. Each
/// job that is out is finished, and each entry that can leave is begun. Each client that can ends its block. Each message
/// that is due is sent and taken, and so is its reply. These come in any order, and other such events may come between
/// them. Messages may be lost, repeated and delayed. No party restarts, and no client begins a block or calls.
///
/// [`left_of`](crate::left_of) computes `left` of a running world.
///
/// One client alone has no such promise: see [`taken_in_turns`](crate::examples::taken_in_turns).
pub fn rounds_calm()
    ensures { (n : ℕ) (w v : World) → IsReached w → Rounds n w v → left w ≤ n → Calm v }
{}
