//! Laws of the definitions: functions with an empty body and one clause.

ghost use Rattle.std.specs.Prelude.{◌≡◌, ◌↔◌};
ghost use Rattle.scoop_message.specs.declared.message.Message.{Message as Sent};
ghost use Rattle.scoop_reserve.specs.declared.stage.Step.{Step as Taken};
ghost use Rattle.scoop_reserve.specs.State.{ReservationState};
ghost use Rattle.scoop_reserve.specs.Hearing.{Notice, heard};
ghost use Rattle.scoop_reserve.specs.Rows.{IsHeard};

/// The effect of a message on a reservation fits its table, and nothing else fits.
pub fn heard_by_the_table()
    ensures { (r : ReservationState) (m : Sent) (s : ReservationState) (step : Taken) → (heard r m ≡ (s, step)) ↔ IsHeard r m s step }
{}
