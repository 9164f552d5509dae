//! Examples that the definitions compute.

ghost use Rattle.scoop_driver.specs.Examples.WaitsForTwo.{WaitsForTwo};

/// A block waits for a condition of two parts.
pub fn waits_for_two()
    ensures { WaitsForTwo }
{}
