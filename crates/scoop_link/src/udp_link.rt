//! A link over UDP.

ghost use Rattle.std.specs.Prelude.{◌≡◌, ◌==◌, ◌≤◌, [], map, None, Err, IfOk, IfSome, IfNone, IsOk};
ghost use Rattle.std.specs.Bool.{OnTrue};
ghost use Rattle.std.specs.List.{list_any};
ghost use Rattle.std.specs.Net.Socket.{socket_port};
ghost use Rattle.scoop_link.specs.Link.{CountsFault, Exchanges};
ghost use Rattle.scoop_link.specs.Udp.{ComesFrom, address_of, local_address, moved, moved_all, reached_at, reached_here, socket_addr_to, address_to, open_udp};

use crate::link::{Link, LinkFault};
use crate::party::Party;
use crate::sets_address::SetsAddress;
use scoop_message::limits::BUFFER_LEN;
use std::alloc::{AllocError, Allocator, Global};
use std::io;
use std::io::ErrorKind;
use std::marker::Model;
use std::net::{IpAddr, Ipv4Addr, Net, SocketAddr, UdpSocket};
use std::time::Duration;
use thiserror::Error;

// How long a receive of a link over ports waits for a datagram.
const RECEIVE_MILLIS: u64 = 10;

// How long one over addresses waits. Systems round such times up to their ticks: with 250 ticks a second this becomes eight
// milliseconds, and ten would become sixteen. A client can't repeat a datagram before its receive ends.
const SHORT_RECEIVE_MILLIS: u64 = 4;

/// One's own port of 127.0.0.1, and the ports of other parties.
#[derive(Clone, Copy, Debug)]
pub struct Peers<'a> {
    /// The port that receives.
    pub own: u16,
    /// The ports of parties, none of them 0. If a party is listed twice, its first port counts.
    pub table: &'a [(Party, u16)],
}

/// One's own address, and the addresses of other parties, by IPv4 or IPv6. A send to an address that one's own
/// can't reach, as one of the other family, is a fault.
#[derive(Clone, Copy, Debug)]
pub struct Addresses<'a> {
    /// The address that receives.
    pub own: SocketAddr,
    /// The addresses of parties, none of them with port 0. If a party is listed twice, its first address counts.
    pub table: &'a [(Party, SocketAddr)],
}

/// The reasons not to open a link.
#[derive(Clone, Copy, Debug, PartialEq, Eq, Error)]
pub enum OpenLinkError {
    /// The system refuses the address, or a party's port is 0.
    #[error("Fault")]
    Fault,
    /// A growth of memory was refused.
    #[error("out of memory")]
    OutOfMemory,
}

/// A socket, with the addresses of the parties that it reaches. Contracts see these, where the last datagram came from, and
/// the count of faults.
///
/// A datagram to a party without an address is lost. A receive waits about ten milliseconds, over addresses four to eight.
#[derive(Drop)]
pub struct UdpLink<A: Allocator = Global> {
    socket: UdpSocket,
    addresses: Vec<(Party, SocketAddr), A>,
    origin: Option<SocketAddr>,
    faults: u64,
}

impl<A: Allocator> Model for UdpLink<A> {
    ghost use Rattle.std.specs.Prelude.{map};
    ghost use Rattle.scoop_link.specs.Udp.{UdpValue, reached_at};

    ghost Value = { UdpValue };

    ghost view = { λ l. record { addresses = map reached_at l.addresses.items; origin = l.origin; faults = l.faults } };
}

// A port of this machine.
fn local(port: u16) -> SocketAddr
    ensures { address_of result ≡ local_address port }
{
    SocketAddr::new(IpAddr::V4(Ipv4Addr::LOCALHOST), port)
}

// A socket at one's own address, whose receives wait so many milliseconds.
fn socket_at<R: Net>(rt: &R, own: SocketAddr, millis: u64) -> io::Result<UdpSocket> {
    let socket = UdpSocket::bind(rt, own)?;
    socket.set_read_timeout(Some(Duration::from_millis(millis)))?;
    Ok(socket)
}

// Parties with their addresses on this machine.
fn local_addresses<A: Allocator>(
    alloc: A,
    ports: &[(Party, u16)],
) -> Result<Vec<(Party, SocketAddr), A>, AllocError>
    ensures { IfOk result (λ v. map reached_at v.items ≡ map reached_here ports.now) }
{
    let mut addresses = Vec::with_capacity(alloc, ports.len())?;
    for (party, port) in ports {
        addresses.push_reserved((*party, local(*port)));
    }
    Ok(addresses)
}

// Whether some party's port is 0.
fn lacks_port(ports: &[(Party, u16)]) -> bool
    ensures { result ≡ list_any (λ p. p.1 == 0) ports.now }
{
    ports.iter().any(|(_, port)| *port == 0)
}

// Whether some party's address has port 0.
fn lacks_port_at(addresses: &[(Party, SocketAddr)]) -> bool
    ensures { result ≡ list_any (λ p. socket_port p.1 == 0) addresses.now }
{
    addresses.iter().any(|(_, address)| address.port() == 0)
}

fn socket_addr_to(addresses: &[(Party, SocketAddr)], to: Party) -> Option<SocketAddr>
    ensures { result ≡ socket_addr_to addresses.now to }
{
    addresses
        .iter()
        .find(|(party, _)| *party == to)
        .map(|(_, address)| *address)
}

// Moves a listed party to another address, if it is this one.
fn move_to(listed: &mut (Party, SocketAddr), party: Party, to: SocketAddr)
    ensures { listed.new ≡ moved party to listed.old }
{
    if listed.0 == party {
        listed.1 = to;
    }
}

// The same for each.
fn move_all<A: Allocator>(addresses: &mut Vec<(Party, SocketAddr), A>, party: Party, to: SocketAddr)
    ensures { addresses.new.items ≡ map (moved party to) addresses.old.items }
{
    for listed in addresses.iter_mut() {
        move_to(listed, party, to);
    }
}

impl<A: Allocator> UdpLink<A> {
    /// Binds one's own port. `Fault` means that a party's port is 0 or the system refuses one's own; then
    /// `OutOfMemory`, that there is no memory for the parties' ports.
    pub fn open<R: Net>(rt: &R, alloc: A, peers: Peers<'_>) -> Result<UdpLink<A>, OpenLinkError>
        ensures opened { IfOk result (λ l. l ≡ open_udp (map reached_here peers.entry.table.now)) }
        ensures no_port { OnTrue (list_any (λ p. p.1 == 0) peers.entry.table.now) (result ≡ Err OpenLinkError.Fault) }
    {
        if lacks_port(peers.table) {
            return Err(OpenLinkError::Fault);
        }
        let socket = socket_at(rt, local(peers.own), RECEIVE_MILLIS).map_err(
            |_| OpenLinkError::Fault,
        )?;
        let addresses = local_addresses(alloc, peers.table).map_err(
            |_| OpenLinkError::OutOfMemory,
        )?;
        Ok(UdpLink {
            socket,
            addresses,
            origin: None,
            faults: 0,
        })
    }

    /// Binds one's own address. `Fault` means that a party's port is 0 or the system refuses one's own address;
    /// then `OutOfMemory`, that there is no memory for the parties' addresses.
    pub fn open_at<R: Net>(
        rt: &R,
        alloc: A,
        addresses: Addresses<'_>,
    ) -> Result<UdpLink<A>, OpenLinkError>
        ensures opened { IfOk result (λ l. l ≡ open_udp (map reached_at addresses.entry.table.now)) }
        ensures no_port { OnTrue (list_any (λ p. socket_port p.1 == 0) addresses.entry.table.now) (result ≡ Err OpenLinkError.Fault) }
    {
        if lacks_port_at(addresses.table) {
            return Err(OpenLinkError::Fault);
        }
        let socket = socket_at(rt, addresses.own, SHORT_RECEIVE_MILLIS).map_err(
            |_| OpenLinkError::Fault,
        )?;
        let addresses = Vec::from_slice(alloc, addresses.table).map_err(
            |_| OpenLinkError::OutOfMemory,
        )?;
        Ok(UdpLink {
            socket,
            addresses,
            origin: None,
            faults: 0,
        })
    }
}

impl<A: Allocator> Link for UdpLink<A> {
    ghost told = { λ _. None };

    ghost fault_count = { λ l. l.faults };

    fn send(&mut self, to: Party, bytes: &[u8]) -> Result<(), LinkFault>
        ensures faults { CountsFault result self.old.faults self.new.faults }

        ensures unlisted { IfNone (address_to self.old.addresses to) (IsOk result) }
        ensures others { self.new ≡ record self.old { faults = self.new.faults } }
    {
        let Some(address) = socket_addr_to(&self.addresses, to) else {
            return Ok(());
        };
        if self.socket.send_to(bytes, address).is_ok() || self.faults == u64::MAX {
            return Ok(());
        }
        self.faults += 1;
        Err(LinkFault)
    }

    fn receive(&mut self, buffer: &mut [u8; BUFFER_LEN]) -> Result<Option<usize>, LinkFault>
        ensures in_bounds { IfOk result (λ got. IfSome got (λ n. n ≤ BUFFER_LEN)) }
        ensures faults { CountsFault result self.old.faults self.new.faults }

        ensures origin { ComesFrom result self.old.origin self.new.origin }
        ensures others { self.new ≡ record self.old { origin = self.new.origin; faults = self.new.faults } }
    {
        match self.socket.recv_from(buffer) {
            Ok((len, from)) => {
                self.origin = Some(from);
                Ok(Some(len))
            }
            Err(e) if matches!(e.kind(), ErrorKind::WouldBlock | ErrorKind::Interrupted) => Ok(
                None,
            ),
            Err(_) => {
                if self.faults == u64::MAX {
                    return Ok(None);
                }
                self.faults += 1;
                Err(LinkFault)
            }
        }
    }

    fn set_waits(&mut self, waits: bool)
        ensures same { self.new ≡ self.old }
    {
        let _waits_as_before = self.socket.set_nonblocking(!waits);
    }

    fn faults(&self) -> u64 {
        self.faults
    }
}

impl<A: Allocator> SetsAddress for UdpLink<A> {
    ghost addresses = { λ l. l.addresses };

    ghost came_from = { λ l. l.origin };

    #[tactic(auto, using(crate::proofs::Udp::moved_reached))]
    fn set_address(&mut self, party: Party, address: SocketAddr)
        ensures moved { self.new ≡ record self.old { addresses = moved_all party (address_of address) self.old.addresses } }
    {
        move_all(&mut self.addresses, party, address);
    }

    fn origin(&self) -> Option<SocketAddr> {
        self.origin
    }
}
