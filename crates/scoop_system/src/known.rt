//! The handlers that a client knows.

ghost use Rattle.std.specs.Prelude.{◌≡◌, ◌++◌, IfOk, OnOk, flat_map};
ghost use Rattle.std.specs.List.{filter};
ghost use Rattle.scoop_system.specs.Known.{is_among, known_to, numbers_on, uses};

use crate::place::{ClientPlace, HandlerPlace, NodePlace};
use crate::system::System;
use scoop_message::{HandlerId, OutOfMemory};
use std::alloc::Global;

impl System {
    /// The handlers that the client uses, node by node. The order is that of the nodes, and of each node's handlers in the file.
    /// The client has to know them in this order. `OutOfMemory` is the one error.
    pub fn known_to(
        &self,
        alloc: Global,
        client: &ClientPlace,
    ) -> Result<Vec<HandlerId>, OutOfMemory>
        ensures { IfOk result (λ known. known.items ≡ known_to self.now client.now) }
    {
        let mut known = Vec::new(alloc);
        match add_nodes(client, self.nodes(), self.handlers(), &mut known) {
            Ok(()) => Ok(known),
            Err(error) => Err(error),
        }
    }
}

impl ClientPlace {
    /// Whether the client uses the handler: it names it, or its table names none.
    pub fn uses(&self, handler: HandlerId) -> bool
        ensures { result ≡ uses self.now.handlers handler }
    {
        match &self.handlers {
            Some(named) => is_among(named.as_slice(), handler),
            None => true,
        }
    }
}

// Adds the handlers of these nodes that the client uses, node by node.
fn add_nodes(
    client: &ClientPlace,
    nodes: &[NodePlace],
    handlers: &[HandlerPlace],
    known: &mut Vec<HandlerId>,
) -> Result<(), OutOfMemory>
    ensures { OnOk result (known.new.items ≡ known.old.items ++ filter (uses client.now.handlers) (flat_map (λ n. numbers_on n.number handlers.now) nodes.now)) }
{
    match nodes {
        [] => Ok(()),
        [first, rest @ ..] => {
            add_node(client, first.number, handlers, known)?;
            add_nodes(client, rest, handlers, known)
        }
    }
}

// Adds the handlers on the node of this number that the client uses.
fn add_node(
    client: &ClientPlace,
    node: u32,
    handlers: &[HandlerPlace],
    known: &mut Vec<HandlerId>,
) -> Result<(), OutOfMemory>
    ensures { OnOk result (known.new.items ≡ known.old.items ++ filter (uses client.now.handlers) (numbers_on node handlers.now)) }
{
    match handlers {
        [] => Ok(()),
        [first, rest @ ..] => {
            if first.node == node && client.uses(first.handler) {
                known.push(first.handler)?;
            }
            add_node(client, node, rest, known)
        }
    }
}

// Whether the handler is among these.
pub(crate) fn is_among(handlers: &[HandlerId], handler: HandlerId) -> bool
    ensures { result ≡ is_among handlers.now handler }
{
    handlers.iter().any(|other| other.0 == handler.0)
}
