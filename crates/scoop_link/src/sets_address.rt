//! Links whose parties can move to other addresses.

ghost use Rattle.std.specs.Prelude.{◌≡◌, [], List, Option};
ghost use Rattle.scoop_link.specs.Link.{Exchanges};
ghost use Rattle.scoop_link.specs.Udp.{Address, address_of, moved_all};

use crate::link::Link;
use crate::party::Party;
use std::net::SocketAddr;

/// A link whose parties can move to other addresses, and that knows where its last datagram came from.
pub trait SetsAddress: Link {
    ghost use Rattle.std.specs.declared.net.socket_addr.SocketAddr.{SocketAddr};
    ghost use Rattle.scoop_link.specs.declared.party.Party.{Party};

    /// The addresses of the parties.
    ghost addresses: { Self → List (Party × Address) };

    /// Where the last datagram came from.
    ghost came_from: { Self → Option SocketAddr };

    /// Sends to this party at this address from now on. A party without an address stays without one.
    fn set_address(&mut self, party: Party, address: SocketAddr)
        ensures moved { addresses self.new ≡ moved_all party (address_of address) (addresses self.old) }
        ensures faults { Self.fault_count self.new ≡ Self.fault_count self.old }
        ensures told { Exchanges (Self.told self.old) (Self.told self.new) [] [] };

    /// The address from which the last datagram came. `None` before the first one.
    fn origin(&self) -> Option<SocketAddr>
        ensures { result ≡ came_from self.now };
}
