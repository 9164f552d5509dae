//! The nodes, handlers and clients of a file.

ghost use Rattle.std.specs.Prelude.{◌≡◌, ◌==◌, [], map, not, Some, Ok, Err, IfOk, IfErr, MatchResult};
ghost use Rattle.std.specs.List.{list_any};
ghost use Rattle.std.specs.Option.{option_copied};
ghost use Rattle.toml.specs.View.{view};
ghost use Rattle.scoop_classes.specs.Classes.{table_of};
ghost use Rattle.scoop_system.specs.Meaning.{node_of, nodes_from, nodes_of, handler_of, handlers_from, handlers_of, handler_class, client_of, clients_from, clients_of, batch_at, number_of};
ghost use Rattle.scoop_system.specs.Meaning.{first_address, first_client, other_family, is_v4, node_at, client_at, address_taken, address_fault, addresses_fault, is_mixed, some_fault};
ghost use Rattle.scoop_system.specs.Meaning.{status_fault, status_node, is_status, name_fault};
ghost use Rattle.scoop_system.specs.System.{has_name};
ghost use Rattle.scoop_system.specs.Stop.{IfFault};

use super::addresses::addresses_at;
use super::place::{at, place_at};
use super::stop::Stop;
use super::used::used_at;
use super::value::{
    address_at, entry, handler_name_at, in_range, key_fault, list_at, number_at, status_at,
    text_at, words_at,
};
use crate::class::{OwnClass, class_named};
use crate::error::{Key, Place, Wrong};
use crate::name::Name;
use crate::node_addresses::has_address;
use crate::place::{ClientPlace, HandlerClass, HandlerPlace, NodePlace};
use crate::system::has_name;
use scoop_classes::DemoClass;
use scoop_message::limits::{MAX_CLIENTS, MAX_ENTRIES, MAX_HANDLERS, MAX_NODES};
use scoop_message::{ClientId, HandlerId};
use std::alloc::Global;
use std::net::SocketAddr;
use toml::Value;

// The nodes of a file.
pub(super) fn read_nodes(alloc: Global, file: &Value) -> Result<Vec<NodePlace>, Stop>
    ensures ok { IfOk result (λ nodes. nodes_of (view file.now) ≡ Ok nodes.items) }
    ensures fault { IfErr result (λ e. IfFault e (λ fault. nodes_of (view file.now) ≡ Err fault)) }
{
    let values = at(Place::File, list_at(file, Key::Node, MAX_NODES))?;
    let mut nodes = Vec::new(alloc);
    match add_nodes(&mut nodes, values) {
        Ok(()) => Ok(nodes),
        Err(stop) => Err(stop),
    }
}

// Adds the nodes of these values. The list is borrowed, so that no early return has to drop it.
fn add_nodes(nodes: &mut Vec<NodePlace>, values: &[Value]) -> Result<(), Stop>
    ensures ok { IfOk result (λ _. nodes_from nodes.old.items (map view values.now) ≡ Ok nodes.new.items) }
    ensures fault { IfErr result (λ e. IfFault e (λ fault. nodes_from nodes.old.items (map view values.now) ≡ Err fault)) }
{
    for value in values {
        let place = place_at(value, Key::Node, nodes.len() + 1);
        match at(place, read_node(value, nodes.as_slice())) {
            Ok(node) => nodes.push(node)?,
            Err(fault) => return Err(Stop::Fault(fault)),
        }
    }
    Ok(())
}

// A node, after those before it.
fn read_node(value: &Value, done: &[NodePlace]) -> Result<NodePlace, Wrong>
    ensures { result ≡ node_of done.now (view value.now) }
{
    if let Some(wrong) = key_fault(value, &[Key::Number, Key::Address, Key::Status]) {
        return Err(wrong);
    }
    let number = read_number(value)?;
    let addresses = addresses_at(value)?;
    let status = status_at(value)?;
    if has_node(done, number) {
        return Err(Wrong::Twice);
    }
    if let Some(wrong) = addresses_fault(done, addresses.as_slice()) {
        return Err(wrong);
    }
    if let Some(wrong) = status_fault(done, status) {
        return Err(wrong);
    }
    Ok(NodePlace {
        number,
        address: addresses.first(),
        addresses,
        status,
    })
}

// The fault of the addresses of a node after these: the first fault of one, or that they are of both families.
fn addresses_fault(nodes: &[NodePlace], addresses: &[SocketAddr]) -> Option<Wrong>
    ensures { result ≡ addresses_fault nodes.now addresses.now }
{
    match some_fault(nodes, addresses) {
        None if is_mixed(addresses) => Some(Wrong::OtherFamily),
        fault => fault,
    }
}

fn some_fault(nodes: &[NodePlace], addresses: &[SocketAddr]) -> Option<Wrong>
    ensures { result ≡ some_fault nodes.now addresses.now }
{
    match addresses {
        [] => None,
        [first, rest @ ..] => match address_fault(nodes, &[], *first) {
            Some(wrong) => Some(wrong),
            None => some_fault(nodes, rest),
        },
    }
}

fn is_mixed(addresses: &[SocketAddr]) -> bool
    ensures { result ≡ is_mixed addresses.now }
{
    match addresses {
        [] => false,
        [first, rest @ ..] => has_other_family(*first, rest),
    }
}

fn has_other_family(first: SocketAddr, addresses: &[SocketAddr]) -> bool
    ensures { result ≡ list_any (other_family (Some first)) addresses.now }
{
    addresses
        .iter()
        .any(|address| other_family(Some(first), *address))
}

// The fault of the status address of a node after these: one of them has it.
fn status_fault(nodes: &[NodePlace], status: Option<SocketAddr>) -> Option<Wrong>
    ensures { result ≡ status_fault nodes.now status }
{
    match status_node(nodes, status?) {
        Some(node) => Some(Wrong::StatusOf(node.number)),
        None => None,
    }
}

// The node whose status address this is.
fn status_node(nodes: &[NodePlace], address: SocketAddr) -> Option<&NodePlace>
    ensures { option_copied result ≡ status_node nodes.now address }
{
    nodes.iter().find(|node| is_status(node.status, address))
}

fn is_status(status: Option<SocketAddr>, address: SocketAddr) -> bool
    ensures { result ≡ is_status status address }
{
    match status {
        Some(status) => status == address,
        None => false,
    }
}

// The number of a node, handler or client.
fn read_number(value: &Value) -> Result<u32, Wrong>
    ensures { result ≡ number_of (view value.now) }
{
    Ok(number_at(value, Key::Number, 0, u64::from(u32::MAX))? as u32)
}

fn has_node(nodes: &[NodePlace], number: u32) -> bool
    ensures { result ≡ list_any (λ n. n.number == number) nodes.now }
{
    nodes.iter().any(|node| node.number == number)
}

// The first address of the file, if there is one.
fn first_address(nodes: &[NodePlace], clients: &[ClientPlace]) -> Option<SocketAddr>
    ensures { result ≡ first_address nodes.now clients.now }
{
    match (nodes, clients) {
        ([node, ..], _) => Some(node.address),
        ([], [client, ..]) => Some(client.address),
        ([], []) => None,
    }
}

// Whether an address is of another family than the first one.
fn other_family(first: Option<SocketAddr>, address: SocketAddr) -> bool
    ensures { result ≡ other_family first address }
{
    match first {
        Some(first) => first.is_ipv4() != address.is_ipv4(),
        None => false,
    }
}

// The fault of the address of a party after these.
fn address_fault(nodes: &[NodePlace], clients: &[ClientPlace], address: SocketAddr) -> Option<Wrong>
    ensures { result ≡ address_fault nodes.now clients.now address }
{
    if let Some(wrong) = address_taken(nodes, clients, address) {
        Some(wrong)
    } else if other_family(first_address(nodes, clients), address) {
        Some(Wrong::OtherFamily)
    } else {
        None
    }
}

// The node or the client that has the address already.
fn address_taken(nodes: &[NodePlace], clients: &[ClientPlace], address: SocketAddr) -> Option<Wrong>
    ensures { result ≡ address_taken nodes.now clients.now address }
{
    match (node_at(nodes, address), client_at(clients, address)) {
        (Some(node), _) => Some(Wrong::AddressOf(Key::Node, node.number)),
        (None, Some(place)) => Some(Wrong::AddressOf(Key::Client, place.client.0)),
        (None, None) => None,
    }
}

fn node_at(nodes: &[NodePlace], address: SocketAddr) -> Option<&NodePlace>
    ensures { option_copied result ≡ node_at nodes.now address }
{
    nodes
        .iter()
        .find(|node| has_address(node.addresses.as_slice(), address))
}

fn client_at(clients: &[ClientPlace], address: SocketAddr) -> Option<&ClientPlace>
    ensures { option_copied result ≡ client_at clients.now address }
{
    clients.iter().find(|place| place.address == address)
}

// The handlers of a file.
pub(super) fn read_handlers(
    alloc: Global,
    file: &Value,
    classes: &[OwnClass],
    nodes: &[NodePlace],
) -> Result<Vec<HandlerPlace>, Stop>
    ensures ok { IfOk result (λ handlers. handlers_of classes.now nodes.now (view file.now) ≡ Ok handlers.items) }
    ensures fault { IfErr result (λ e. IfFault e (λ fault. handlers_of classes.now nodes.now (view file.now) ≡ Err fault)) }
{
    let values = at(Place::File, list_at(file, Key::Handler, MAX_HANDLERS))?;
    let mut handlers = Vec::new(alloc);
    match add_handlers(&mut handlers, classes, nodes, values) {
        Ok(()) => Ok(handlers),
        Err(stop) => Err(stop),
    }
}

// Adds the handlers of these values.
fn add_handlers(
    handlers: &mut Vec<HandlerPlace>,
    classes: &[OwnClass],
    nodes: &[NodePlace],
    values: &[Value],
) -> Result<(), Stop>
    ensures ok { IfOk result (λ _. handlers_from classes.now nodes.now handlers.old.items (map view values.now) ≡ Ok handlers.new.items) }
    ensures fault { IfErr result (λ e. IfFault e (λ fault.
        handlers_from classes.now nodes.now handlers.old.items (map view values.now) ≡ Err fault)) }
{
    for value in values {
        let place = place_at(value, Key::Handler, handlers.len() + 1);
        match at(
            place,
            read_handler(value, classes, nodes, handlers.as_slice()),
        ) {
            Ok(handler) => handlers.push(handler)?,
            Err(fault) => return Err(Stop::Fault(fault)),
        }
    }
    Ok(())
}

// A handler, after those before it.
fn read_handler(
    value: &Value,
    classes: &[OwnClass],
    nodes: &[NodePlace],
    done: &[HandlerPlace],
) -> Result<HandlerPlace, Wrong>
    ensures { result ≡ handler_of classes.now nodes.now done.now (view value.now) }
{
    let known = [Key::Number, Key::Name, Key::Node, Key::Class, Key::Words];
    if let Some(wrong) = key_fault(value, &known) {
        return Err(wrong);
    }
    let number = read_number(value)?;
    let node = number_at(value, Key::Node, 0, u64::from(u32::MAX))? as u32;
    let class = text_at(value, Key::Class)?;
    let words = words_at(value)?;
    let name = handler_name_at(value)?;
    if has_handler(done, number) {
        return Err(Wrong::Twice);
    }
    if let Some(wrong) = name_fault(done, name) {
        return Err(wrong);
    }
    if !has_node(nodes, node) {
        return Err(Wrong::NoSuchNode(node));
    }
    let (class, count) = handler_class(classes, class)?;
    if words.len() != count {
        return Err(Wrong::WordCount(words.len(), count));
    }
    Ok(HandlerPlace {
        handler: HandlerId(number),
        node,
        class,
        words,
        name,
    })
}

// The fault of the name of a handler after these: one of them has it.
fn name_fault(handlers: &[HandlerPlace], name: Option<Name>) -> Option<Wrong>
    ensures { result ≡ name_fault handlers.now name }
{
    let name = name?;
    if is_named(handlers, name) {
        Some(Wrong::NameTwice(name))
    } else {
        None
    }
}

fn is_named(handlers: &[HandlerPlace], name: Name) -> bool
    ensures { result ≡ list_any (λ h. has_name h.name name) handlers.now }
{
    handlers
        .iter()
        .any(|place| has_name(place.name, name.as_bytes()))
}

fn has_handler(handlers: &[HandlerPlace], number: u32) -> bool
    ensures { result ≡ list_any (λ h. h.handler.0 == number) handlers.now }
{
    handlers.iter().any(|place| place.handler.0 == number)
}

// The class of this name, and its number of words.
fn handler_class(classes: &[OwnClass], name: &str) -> Result<(HandlerClass, usize), Wrong>
    ensures { result ≡ handler_class classes.now name.now }
{
    if let Some(class) = DemoClass::from_name(name) {
        return Ok((HandlerClass::Known(class), known_words(class)));
    }
    match class_named(classes, name.as_bytes()) {
        Some(own) => Ok((HandlerClass::Own(own.name()), own.class().words())),
        None => Err(Wrong::NoSuchClass(Name::told(name))),
    }
}

// The number of words of an object of the class.
fn known_words(class: DemoClass) -> usize
    ensures { result ≡ (table_of class).words }
{
    match class {
        DemoClass::Cell | DemoClass::Counter | DemoClass::Account => 1,
        DemoClass::Exchange => 2,
    }
}

// The clients of a file.
pub(super) fn read_clients(
    alloc: Global,
    file: &Value,
    nodes: &[NodePlace],
    handlers: &[HandlerPlace],
) -> Result<Vec<ClientPlace>, Stop>
    ensures ok { IfOk result (λ clients. clients_of nodes.now handlers.now (view file.now) ≡ Ok clients.items) }
    ensures fault { IfErr result (λ e. IfFault e (λ fault. clients_of nodes.now handlers.now (view file.now) ≡ Err fault)) }
{
    let values = at(Place::File, list_at(file, Key::Client, MAX_CLIENTS))?;
    let mut clients = Vec::new(alloc);
    match add_clients(&mut clients, nodes, handlers, values) {
        Ok(()) => Ok(clients),
        Err(stop) => Err(stop),
    }
}

// Adds the clients of these values.
fn add_clients(
    clients: &mut Vec<ClientPlace>,
    nodes: &[NodePlace],
    handlers: &[HandlerPlace],
    values: &[Value],
) -> Result<(), Stop>
    ensures ok { IfOk result (λ _. clients_from nodes.now handlers.now clients.old.items (map view values.now) ≡ Ok clients.new.items) }
    ensures fault { IfErr result (λ e. IfFault e (λ fault.
        clients_from nodes.now handlers.now clients.old.items (map view values.now) ≡ Err fault)) }
{
    for value in values {
        let place = place_at(value, Key::Client, clients.len() + 1);
        match at(
            place,
            read_client(value, nodes, handlers, clients.as_slice()),
        ) {
            Ok(client) => clients.push(client)?,
            Err(fault) => return Err(Stop::Fault(fault)),
        }
    }
    Ok(())
}

// A client, after those before it.
fn read_client(
    value: &Value,
    nodes: &[NodePlace],
    handlers: &[HandlerPlace],
    done: &[ClientPlace],
) -> Result<ClientPlace, Wrong>
    ensures { result ≡ client_of nodes.now handlers.now done.now (view value.now) }
{
    let known = [Key::Number, Key::Address, Key::Batch, Key::Handlers];
    if let Some(wrong) = key_fault(value, &known) {
        return Err(wrong);
    }
    let number = read_number(value)?;
    let address = address_at(value)?;
    let batch = batch_at(value)?;
    let used = used_at(value, handlers)?;
    if has_client(done, number) {
        return Err(Wrong::Twice);
    }
    if let Some(wrong) = address_fault(nodes, done, address) {
        return Err(wrong);
    }
    Ok(ClientPlace {
        client: ClientId(number),
        address,
        batch,
        handlers: used,
    })
}

fn has_client(clients: &[ClientPlace], number: u32) -> bool
    ensures { result ≡ list_any (λ c. c.client.0 == number) clients.now }
{
    clients.iter().any(|place| place.client.0 == number)
}

// The number of entries that a client puts into one Log: 1 by default.
fn batch_at(value: &Value) -> Result<u8, Wrong>
    ensures { result ≡ batch_at (view value.now) }
{
    match entry(value, Key::Batch) {
        Some(batch) => Ok(in_range(batch, Key::Batch, 1, MAX_ENTRIES as u64)? as u8),
        None => Ok(1),
    }
}
