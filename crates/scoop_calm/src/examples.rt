//! Worlds that are computed.

ghost use Rattle.scoop_calm.specs.Examples.Counted.{Counted};
ghost use Rattle.scoop_calm.specs.Examples.Turns.{TakenInTurns};

/// A client joins, reserves a handler and ends its block: what is left falls with each step.
pub fn counted()
    ensures { Counted }
{}

/// Two clients take turns at a handler, and a third one asks for its lock in each turn and never gets it.
pub fn taken_in_turns()
    ensures { TakenInTurns }
{}
