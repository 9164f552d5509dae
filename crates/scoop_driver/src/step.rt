//! A driver's steps.

use scoop_client::Command;
use scoop_frame::Version;
use scoop_link::Datagram;
use scoop_message::Message;

/// The outcome of a turn's receive.
#[derive(Drop)]
pub enum Received {
    /// Nothing came.
    Nothing,
    /// The frame of this message, in this version.
    Frame(Version, Message),
    /// A datagram that is no frame.
    NoFrame(Datagram),
    /// The link failed.
    Fault,
}

/// One step of a driver. A turn sends every message due at that moment, so a step doesn't repeat them.
#[derive(Drop)]
pub enum Step {
    /// The client took this command.
    Gave(Command),
    /// Every due message was sent to the client's handlers, in their order, and then this was received.
    Turned(Received),
    /// The turn broke off at the send to the client's handler at this place, counted from 0. The messages due to
    /// the handlers before it were sent. The one whose send failed may have been sent.
    Broke(usize),
}
