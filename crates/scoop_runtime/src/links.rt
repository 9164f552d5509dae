//! The links of nodes and clients.

ghost use Rattle.std.specs.Prelude.{IfOk};
ghost use Rattle.std.specs.List.{Contains};
ghost use Rattle.scoop_runtime.specs.Members.{StandsAt};

use scoop_errors::PartyError;
use scoop_link::{Addresses, OpenLinkError, Party, UdpLink};
use scoop_message::OutOfMemory;
use scoop_system::{ClientPlace, NodePlace, System};
use scoop_texts::RuntimeError;
use std::alloc::Global;
use std::net::{Net, SocketAddr};

// Binds the first of the party's own addresses that is free on this machine. The table has the addresses of the others.
fn open_link<R: Net>(
    rt: &R,
    alloc: Global,
    own: &[SocketAddr],
    table: &[(Party, SocketAddr)],
) -> Result<(UdpLink, SocketAddr), RuntimeError>
    ensures { IfOk result (λ r. Contains own.now r.1) }
{
    for address in own {
        let addresses = Addresses {
            own: *address,
            table,
        };
        match UdpLink::open_at(rt, alloc, addresses) {
            Ok(link) => return Ok((link, *address)),
            Err(OpenLinkError::Fault) => {}
            Err(error) => return Err(RuntimeError::from(PartyError::from(error))),
        }
    }
    Err(RuntimeError::from(PartyError::from(OpenLinkError::Fault)))
}

/// The link of a node, which reaches each client of the system, and the place where the node stands. It stands at the
/// first of its addresses that can be bound. `link: Fault` if none can.
pub fn open_node_link<R: Net>(
    rt: &R,
    alloc: Global,
    system: &System,
    node: &NodePlace,
) -> Result<(UdpLink, NodePlace), RuntimeError>
    ensures { IfOk result (λ r. StandsAt node.now r.1) }
{
    let mut table = Vec::new(alloc);
    for place in system.clients() {
        let entry = (Party::Client(place.client), place.address);
        table.push(entry).map_err(OutOfMemory::from)?;
    }
    let (link, address) = open_link(rt, alloc, node.addresses.as_slice(), &table)?;
    Ok((link, node.at(address)))
}

/// The link of a client, which reaches each handler of the system at the first address of its node. `link: Fault` if the client's
/// address can't be bound.
pub fn open_client_link<R: Net>(
    rt: &R,
    alloc: Global,
    system: &System,
    client: &ClientPlace,
) -> Result<UdpLink, RuntimeError> {
    let mut table = Vec::new(alloc);
    for place in system.handlers() {
        if let Some(node) = system.node(place.node) {
            let entry = (Party::Handler(place.handler), node.address);
            table.push(entry).map_err(OutOfMemory::from)?;
        }
    }
    let (link, _) = open_link(rt, alloc, &[client.address], &table)?;
    Ok(link)
}
