//! Examples that the definitions compute.

ghost use Rattle.scoop_pacing.specs.Example.{Examples};

/// The timeouts of steady and changing round trips, and which repeats of a lost, an answered and a new datagram go.
pub fn computed_examples()
    ensures { Examples }
{}
