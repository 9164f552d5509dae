//! The addresses that the table of a node gives.

ghost use Rattle.std.specs.Prelude.{◌≡◌, ◌≤◌, [], length, map};
ghost use Rattle.toml.specs.Data.{as_array};
ghost use Rattle.toml.specs.View.{view};
ghost use Rattle.scoop_system.specs.declared.node_addresses.TheConstants.{MAX_ADDRESSES};
ghost use Rattle.scoop_system.specs.Addresses.{addresses_at, addresses_from, addresses_in, next_address, some_addresses};

use super::value::{address_in, entry};
use crate::error::{Key, Wrong};
use crate::node_addresses::{MAX_ADDRESSES, NodeAddresses, has_address, nowhere};
use std::net::SocketAddr;
use toml::Value;

// The addresses of a node.
pub(super) fn addresses_at(value: &Value) -> Result<NodeAddresses, Wrong>
    ensures { result ≡ addresses_at (view value.now) }
{
    match entry(value, Key::Address) {
        Some(addresses) => addresses_in(addresses),
        None => Err(Wrong::Missing(Key::Address)),
    }
}

// One address, or a list of them.
fn addresses_in(value: &Value) -> Result<NodeAddresses, Wrong>
    ensures { result ≡ addresses_in (view value.now) (as_array (view value.now)) }
{
    match value.as_array() {
        Some(array) => some_addresses(array.as_slice()),
        None => Ok(NodeAddresses::one(address_in(value, Key::Address)?)),
    }
}

// At least one address, and not more than a node may have.
fn some_addresses(values: &[Value]) -> Result<NodeAddresses, Wrong>
    ensures { result ≡ some_addresses (map view values.now) }
{
    if values.is_empty() || values.len() > MAX_ADDRESSES {
        return Err(Wrong::NotAddresses);
    }
    read_addresses(values)
}

fn read_addresses(values: &[Value]) -> Result<NodeAddresses, Wrong>
    requires { length values.now ≤ MAX_ADDRESSES }
    ensures { result ≡ addresses_from [] (map view values.now) }
{
    let mut addresses = [nowhere(); MAX_ADDRESSES];
    for (place, value) in values.iter().enumerate() {
        match next_address(value, &addresses[..place]) {
            Ok(address) => addresses[place] = address,
            Err(wrong) => return Err(wrong),
        }
    }
    match NodeAddresses::of(&addresses[..values.len()]) {
        Ok(addresses) => Ok(addresses),
        Err(_) => unreachable!(),
    }
}

// An address, after those before it.
fn next_address(value: &Value, done: &[SocketAddr]) -> Result<SocketAddr, Wrong>
    ensures { result ≡ next_address done.now (view value.now) }
{
    let address = address_in(value, Key::Address)?;
    if has_address(done, address) {
        return Err(Wrong::AddressTwice(address));
    }
    Ok(address)
}
