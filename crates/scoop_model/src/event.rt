//! The events of a world.

use scoop_client::Command;
use scoop_message::{ClientId, HandlerId};

/// One event. It moves one party; a message that is lost is one that is never taken.
#[derive(Clone, Copy, Debug, PartialEq, Eq)]
pub enum Event {
    /// The client takes a command.
    Do(ClientId, Command),
    /// The client sends the handler the message that is due to it, if any.
    Tick(ClientId, HandlerId),
    /// The receiver takes the message at this place in the list of sent messages, counted from 1.
    Take(usize),
    /// The handler hands out its next entry and its object, so that the entry runs.
    Begin(HandlerId),
    /// The entry that was handed out has run.
    Finish(HandlerId),
    /// The client restarts with its next incarnation, and greets again.
    ClientRestart(ClientId),
    /// The node restarts with the stored states of its handlers.
    NodeRestart(u32),
}
