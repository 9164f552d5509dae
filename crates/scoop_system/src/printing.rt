//! A printed system.

ghost use Rattle.std.specs.Prelude.{OnOk};
ghost use Rattle.std.specs.Io.KnownBytes.{Appends};
ghost use Rattle.scoop_system.specs.SystemText.{system_text, nodes_text, node_text, addresses_text, handlers_text, handler_text, numbers_text, clients_text, client_text, status_text, name_text, identity_text, own_name_text, life_text, used_text, handler_numbers_text};

mod class;

use crate::identity::Identity;
use crate::name::Name;
use crate::named_handlers::NamedHandlers;
use crate::place::{ClientPlace, HandlerPlace, NodePlace};
use crate::system::System;
pub use class::print_class;
use class::print_classes;
use scoop_message::HandlerId;
use std::io;
use std::io::Write;
use std::net::SocketAddr;

/// Writes a system:
/// - a line of its name and life if it has one of them;
/// - a line for each node and for each of its handlers;
/// - a line for each client;
/// - a line for each class of its own and for each of the class's operations.
pub fn print_system<W: Write>(system: &System, writer: &mut W) -> io::Result<()>
    ensures { OnOk result (Appends (W.contents writer.old) (W.contents writer.new) (system_text system.now)) }
{
    print_identity(system.identity(), writer)?;
    print_nodes(system.nodes(), system.handlers(), writer)?;
    print_clients(system.clients(), writer)?;
    print_classes(system.classes(), writer)
}

// The name and the life, if the system has one of them.
fn print_identity<W: Write>(identity: Identity, writer: &mut W) -> io::Result<()>
    ensures { OnOk result (Appends (W.contents writer.old) (W.contents writer.new) (identity_text identity)) }
{
    if identity.is_none() {
        return Ok(());
    }
    writer.write_all(b"system")?;
    print_own_name(identity.name, writer)?;
    print_life(identity.life, writer)?;
    writeln!(writer)
}

fn print_own_name<W: Write>(name: Option<Name>, writer: &mut W) -> io::Result<()>
    ensures { OnOk result (Appends (W.contents writer.old) (W.contents writer.new) (own_name_text name)) }
{
    match name {
        Some(name) => write!(writer, " {name}"),
        None => Ok(()),
    }
}

fn print_life<W: Write>(life: Option<u32>, writer: &mut W) -> io::Result<()>
    ensures { OnOk result (Appends (W.contents writer.old) (W.contents writer.new) (life_text life)) }
{
    match life {
        Some(life) => write!(writer, " life {life}"),
        None => Ok(()),
    }
}

fn print_nodes<W: Write>(
    nodes: &[NodePlace],
    handlers: &[HandlerPlace],
    writer: &mut W,
) -> io::Result<()>
    ensures { OnOk result (Appends (W.contents writer.old) (W.contents writer.new) (nodes_text handlers.now nodes.now)) }
{
    match nodes {
        [] => Ok(()),
        [first, rest @ ..] => {
            print_node(first, handlers, writer)?;
            print_nodes(rest, handlers, writer)
        }
    }
}

fn print_node<W: Write>(
    node: &NodePlace,
    handlers: &[HandlerPlace],
    writer: &mut W,
) -> io::Result<()>
    ensures { OnOk result (Appends (W.contents writer.old) (W.contents writer.new) (node_text handlers.now node.now)) }
{
    let number = node.number;
    write!(writer, "node {number}")?;
    print_addresses(node.addresses.as_slice(), writer)?;
    print_status(node.status, writer)?;
    writeln!(writer)?;
    print_handlers(number, handlers, writer)
}

// Addresses, with a space before each.
fn print_addresses<W: Write>(addresses: &[SocketAddr], writer: &mut W) -> io::Result<()>
    ensures { OnOk result (Appends (W.contents writer.old) (W.contents writer.new) (addresses_text addresses.now)) }
{
    match addresses {
        [] => Ok(()),
        [first, rest @ ..] => {
            write!(writer, " {first}")?;
            print_addresses(rest, writer)
        }
    }
}

// The status address of a node, if it has one.
fn print_status<W: Write>(status: Option<SocketAddr>, writer: &mut W) -> io::Result<()>
    ensures { OnOk result (Appends (W.contents writer.old) (W.contents writer.new) (status_text status)) }
{
    match status {
        Some(address) => write!(writer, " status {address}"),
        None => Ok(()),
    }
}

// The handlers of a node.
fn print_handlers<W: Write>(node: u32, handlers: &[HandlerPlace], writer: &mut W) -> io::Result<()>
    ensures { OnOk result (Appends (W.contents writer.old) (W.contents writer.new) (handlers_text node handlers.now)) }
{
    match handlers {
        [] => Ok(()),
        [first, rest @ ..] => {
            if first.node == node {
                print_handler(first, writer)?;
            }
            print_handlers(node, rest, writer)
        }
    }
}

#[tactic(auto, unfolding(crate::specs::SystemText::handler_text))]
fn print_handler<W: Write>(place: &HandlerPlace, writer: &mut W) -> io::Result<()>
    ensures { OnOk result (Appends (W.contents writer.old) (W.contents writer.new) (handler_text place.now)) }
{
    let handler = place.handler;
    let class = place.class;
    write!(writer, "  handler {handler} {class}")?;
    print_numbers(place.words.as_slice(), writer)?;
    print_name(place.name, writer)?;
    writeln!(writer)
}

// The name of a handler, if it has one.
fn print_name<W: Write>(name: Option<Name>, writer: &mut W) -> io::Result<()>
    ensures { OnOk result (Appends (W.contents writer.old) (W.contents writer.new) (name_text name)) }
{
    match name {
        Some(name) => write!(writer, " name {name}"),
        None => Ok(()),
    }
}

// Numbers, with a space before each.
fn print_numbers<W: Write>(numbers: &[u64], writer: &mut W) -> io::Result<()>
    ensures { OnOk result (Appends (W.contents writer.old) (W.contents writer.new) (numbers_text numbers.now)) }
{
    match numbers {
        [] => Ok(()),
        [first, rest @ ..] => {
            write!(writer, " {first}")?;
            print_numbers(rest, writer)
        }
    }
}

fn print_clients<W: Write>(clients: &[ClientPlace], writer: &mut W) -> io::Result<()>
    ensures { OnOk result (Appends (W.contents writer.old) (W.contents writer.new) (clients_text clients.now)) }
{
    match clients {
        [] => Ok(()),
        [first, rest @ ..] => {
            print_client(first, writer)?;
            print_clients(rest, writer)
        }
    }
}

#[tactic(auto, unfolding(crate::specs::SystemText::client_text))]
fn print_client<W: Write>(place: &ClientPlace, writer: &mut W) -> io::Result<()>
    ensures { OnOk result (Appends (W.contents writer.old) (W.contents writer.new) (client_text place.now)) }
{
    let client = place.client;
    let address = place.address;
    let batch = place.batch;
    write!(writer, "client {client} {address} batch {batch}")?;
    print_used(&place.handlers, writer)?;
    writeln!(writer)
}

// The handlers that a client uses, if its table names them.
fn print_used<W: Write>(handlers: &Option<NamedHandlers>, writer: &mut W) -> io::Result<()>
    ensures { OnOk result (Appends (W.contents writer.old) (W.contents writer.new) (used_text handlers.now)) }
{
    match handlers {
        Some(handlers) => {
            writer.write_all(b" handlers")?;
            print_handler_numbers(handlers.as_slice(), writer)
        }
        None => Ok(()),
    }
}

// The numbers of handlers, with a space before each.
fn print_handler_numbers<W: Write>(handlers: &[HandlerId], writer: &mut W) -> io::Result<()>
    ensures { OnOk result (Appends (W.contents writer.old) (W.contents writer.new) (handler_numbers_text handlers.now)) }
{
    match handlers {
        [] => Ok(()),
        [first, rest @ ..] => {
            write!(writer, " {first}")?;
            print_handler_numbers(rest, writer)
        }
    }
}
