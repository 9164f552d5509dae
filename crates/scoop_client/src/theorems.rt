//! Laws of the definitions: functions with an empty body and one clause.

ghost use Rattle.std.specs.Prelude.{◌≡◌, ◌↔◌, Option};
ghost use Rattle.scoop_message.specs.declared.name.HandlerId.{HandlerId};
ghost use Rattle.scoop_message.specs.declared.message.Message.{Message};
ghost use Rattle.scoop_client.specs.declared.phase.ClientNote.{ClientNote};
ghost use Rattle.scoop_client.specs.State.{ClientState};
ghost use Rattle.scoop_client.specs.Due.{due};
ghost use Rattle.scoop_client.specs.Hearing.{heard};
ghost use Rattle.scoop_client.specs.Commands.{Command, Outcome, command};
ghost use Rattle.scoop_client.specs.Rows.{IsDue, IsHeard, CommandRow};

/// The message that is due to a handler fits the table, and nothing else fits.
pub fn due_by_the_table()
    ensures { (c : ClientState) (h : HandlerId) (message : Option Message) → (due c h ≡ message) ↔ IsDue c h message }
{}

/// The effect of a message on a client fits the table, and nothing else fits.
pub fn heard_by_the_table()
    ensures { (c : ClientState) (m : Message) (d : ClientState) (note : ClientNote) → (heard c m ≡ (d, note)) ↔ IsHeard c m d note }
{}

/// The outcome of a command fits the table, and nothing else fits.
pub fn commanded_by_the_table()
    ensures { (c : ClientState) (x : Command) (outcome : Outcome) → (command c x ≡ outcome) ↔ CommandRow c x outcome }
{}
