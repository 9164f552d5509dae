//! The handlers that a line names and its client doesn't use.

ghost use Rattle.std.specs.Prelude.{◌≡◌};
ghost use Rattle.scoop_system.specs.Using.{first_unused, unused};

use crate::line::ClientLine;
use crate::place::ClientPlace;
use scoop_message::HandlerId;

// The first of these handlers that the client doesn't use.
fn first_unused(client: &ClientPlace, handlers: &[HandlerId]) -> Option<HandlerId>
    ensures { result ≡ first_unused client.now handlers.now }
{
    handlers
        .iter()
        .copied()
        .find(|handler| !client.uses(*handler))
}

impl ClientPlace {
    /// The first handler that the line reserves, calls or queries and the client doesn't use.
    pub fn unused(&self, line: &ClientLine) -> Option<HandlerId>
        ensures { result ≡ unused self.now line.now }
    {
        match line {
            ClientLine::Reserve(handlers) => first_unused(self, handlers.as_slice()),
            ClientLine::ReserveWhen { handlers, .. } => first_unused(self, handlers.as_slice()),
            ClientLine::Call(handler, _) | ClientLine::Query(handler, _) => {
                first_unused(self, &[*handler])
            }
            ClientLine::End | ClientLine::GiveUp | ClientLine::Blank => None,
            ClientLine::Help | ClientLine::Quit => None,
        }
    }
}
