//! The receivers of datagrams.

use scoop_message::{ClientId, HandlerId};

/// The receiver of a datagram.
#[derive(Clone, Copy, Debug, PartialEq, Eq)]
pub enum Party {
    /// A handler, at whose node the datagram arrives.
    Handler(HandlerId),
    /// A client.
    Client(ClientId),
}
