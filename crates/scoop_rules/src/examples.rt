//! Examples: computed worlds, with the moves of the written rules beside their events.

ghost use Rattle.scoop_rules.specs.Examples.OneCell.{OneCell};
ghost use Rattle.scoop_rules.specs.Examples.ThreeClients.{ThreeClients};
ghost use Rattle.scoop_rules.specs.Examples.CutShort.{OpensAtOne, RunsWhatCame};
ghost use Rattle.scoop_rules.specs.Examples.NodeRestarts.{RunsOnce};

/// A client sets a cell and ends its block.
pub fn one_cell()
    ensures { OneCell }
{}

/// Three clients reserve two of three cells each, in a circle.
pub fn three_clients()
    ensures { ThreeClients }
{}

/// A client restarts between the openings of its block at two handlers.
pub fn opens_at_one()
    ensures { OpensAtOne }
{}

/// A client restarts with two calls received that have not run.
pub fn runs_what_came()
    ensures { RunsWhatCame }
{}

/// A node restarts while a query's job is out, and again after it has run.
pub fn runs_once()
    ensures { RunsOnce }
{}
