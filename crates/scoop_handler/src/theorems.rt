//! Laws of the definitions: functions with an empty body and one clause.

ghost use Rattle.std.specs.Prelude.{◌≡◌, ◌↔◌};
ghost use Rattle.scoop_message.specs.declared.message.Message.{Message};
ghost use Rattle.scoop_handler.specs.State.{HandlerState};
ghost use Rattle.scoop_handler.specs.Hearing.{Hearing, hear};
ghost use Rattle.scoop_handler.specs.Rows.{Row};

/// The effect of a message on a handler fits a row of its table, and nothing else fits one.
pub fn heard_by_the_table()
    ensures { (s : HandlerState) (m : Message) (hearing : Hearing) → (hear s m ≡ hearing) ↔ Row s m hearing }
{}
