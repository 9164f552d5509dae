//! The theorems: every event of a world follows the written rules.

ghost use Rattle.std.specs.Prelude.{◌≡◌, List};
ghost use Rattle.scoop_model.specs.declared.event.Event.{Event as WorldEvent};
ghost use Rattle.scoop_model.specs.World.{World, inc_of};
ghost use Rattle.scoop_model.specs.Step.{Placement, Newcomer, opening};
ghost use Rattle.scoop_model.specs.Opening.{MayOpen};
ghost use Rattle.scoop_model.specs.Reach.{IsReached, steps};
ghost use Rattle.scoop_rules.specs.Paper.{FollowsRules, RunsByRules, configuration_of, empty_configuration, moves_in, objects_of, replayed};

/// A world that opens stands for the configuration in which nothing was reserved and nothing has run, with the
/// incarnations that its clients begin with.
pub fn opens_empty()
    ensures { (placements : List Placement) (newcomers : List Newcomer)
        → configuration_of (opening placements newcomers) ≡ empty_configuration (inc_of (opening placements newcomers)) }
{}

/// Each event in a world that can be reached is a list of moves of the written rules. A joint reservation is one move,
/// at the block's first opening anywhere. Each entry is one move at the moment when its client logs it, and one more
/// when it runs, with the same answer.
pub fn follows_rules()
    ensures { (w : World) (event : WorldEvent) → IsReached w → FollowsRules w event }
{}

/// Any list of events from a world that opens is a run of the written rules. The moves of its events, one after
/// another, lead from the configuration without reservations to the one that the last world stands for.
pub fn runs_by_rules()
    ensures { (placements : List Placement) (newcomers : List Newcomer) (events : List WorldEvent) → MayOpen placements newcomers
        → RunsByRules (opening placements newcomers) events (steps (opening placements newcomers) events) }
{}

/// Played one after another, without a test whether each is allowed, these moves make the configuration that the last
/// world stands for.
pub fn replays()
    ensures { (placements : List Placement) (newcomers : List Newcomer) (events : List WorldEvent) → MayOpen placements newcomers
        → replayed (objects_of (opening placements newcomers)) (moves_in (opening placements newcomers) events)
        (empty_configuration (inc_of (opening placements newcomers))) ≡ configuration_of (steps (opening placements newcomers) events) }
{}
