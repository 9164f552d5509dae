//! A driver's steps as moves of its client.

ghost use Rattle.std.specs.Prelude.{List};
ghost use Rattle.scoop_client.specs.State.{ClientState};
ghost use Rattle.scoop_driver.specs.declared.step.Step.{Step as Made};
ghost use Rattle.scoop_driver.specs.Steps.{AllCan};
ghost use Rattle.scoop_driver.specs.Driving.{AreMoves};

/// Steps that a driver can make are moves that its client can make, one after another, and lead to the same
/// client. The function states this, and does nothing.
pub fn steps_are_moves()
    ensures { (c : ClientState) (steps : List Made) → AllCan c steps → AreMoves c steps }
{}
