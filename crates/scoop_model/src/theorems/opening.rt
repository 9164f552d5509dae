//! The theorem about a world that opens.

ghost use Rattle.std.specs.Prelude.{List};
ghost use Rattle.scoop_model.specs.Step.{Placement, Newcomer, opening};
ghost use Rattle.scoop_model.specs.Safe.{Safe};

/// A world that opens is safe: nothing has happened in it.
pub fn opens_safe()
    ensures { (placements : List Placement) (newcomers : List Newcomer) → Safe (opening placements newcomers) }
{}
