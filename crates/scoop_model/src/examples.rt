//! Examples: worlds that the definitions compute from lists of events.

ghost use Rattle.scoop_model.specs.Examples.Repeats.{RepeatedQuery};
ghost use Rattle.scoop_model.specs.Examples.GivingUp.{GivesUp};
ghost use Rattle.scoop_model.specs.Examples.Waits.{WaitsForTheFirst};
ghost use Rattle.scoop_model.specs.Examples.LastIncarnation.{LastIncarnation};

/// A query's Log comes three times.
pub fn repeated_query()
    ensures { RepeatedQuery }
{}

/// A client gives a block up while another one holds a lock that it asked for.
pub fn gives_up()
    ensures { GivesUp }
{}

/// The first private queue is empty and not ended, and the next one is full.
pub fn waits_for_the_first()
    ensures { WaitsForTheFirst }
{}

/// A client opens with the highest incarnation.
pub fn last_incarnation()
    ensures { LastIncarnation }
{}
