//! The members and the name in a text.

ghost use Rattle.std.specs.Prelude.{◌≡◌, ◌==◌, codes, Ok, Err, IfOk, IfErr};
ghost use Rattle.std.specs.List.{starts_with};
ghost use Rattle.scoop_etcd_place.specs.Place.{is_port, is_end, is_plain, is_bracketed, is_member, members_fault, name_fault, parts_fault, parts_of, place_of};

use scoop_etcd::is_store_name;
use scoop_lines::decimal_u16;
use std::fmt;
use thiserror::Error;

// Members of an etcd, at most: as many as a gateway takes.
const MAX_MEMBERS: usize = 8;

/// Why a text names no store in an etcd.
#[derive(Clone, Copy, Debug, PartialEq, Eq, Error)]
pub enum PlaceFault {
    /// It doesn't begin with `etcd://`.
    #[error("it doesn't begin with etcd://")]
    NotEtcd,
    /// It has no member before its name.
    #[error("it names no member: write etcd://HOST:PORT,HOST:PORT/NAME")]
    NoMember,
    /// It has more than eight members.
    #[error("it names more than 8 members")]
    TooManyMembers,
    /// A member isn't `HOST:PORT`, with a port from 1 to 65535.
    #[error("a member must be HOST:PORT, with a port from 1 to 65535")]
    BadMember,
    /// It has no name after its members.
    #[error("it has no name: write etcd://HOST:PORT,HOST:PORT/NAME")]
    NoName,
    /// Its name isn't one of a store.
    #[error("its name must be 1 to 64 letters, digits, -, _ and .")]
    BadName,
}

/// A store in an etcd, by the text that names it. Printed as that text.
#[derive(Clone, Copy)]
pub struct EtcdPlace<'t> {
    /// The members, 1 to 8 of `HOST:PORT` with commas between them.
    pub members: &'t str,
    /// The store's name.
    pub name: &'t str,
}

/// Whether a text begins as one that names a store in an etcd. Any other text is a file's path.
pub fn begins_as_etcd(text: &str) -> bool
    ensures { result ≡ starts_with ◌==◌ text.now (codes "etcd://") }
{
    text.starts_with("etcd://")
}

fn is_port(text: &str) -> bool
    ensures { result ≡ is_port text.now }
{
    match decimal_u16(text.as_bytes()) {
        Some(port) => port > 0,
        None => false,
    }
}

// Whether a text is a colon and a port.
fn is_end(text: &str) -> bool
    ensures { result ≡ is_end text.now }
{
    match text.strip_prefix(":") {
        Some(port) => is_port(port),
        None => false,
    }
}

fn is_plain(text: &str) -> bool
    ensures { result ≡ is_plain text.now }
{
    match text.split_once(':') {
        Some((host, port)) => !host.is_empty() && is_port(port),
        None => false,
    }
}

// Whether a text after a bracket goes on as an IPv6 address.
fn is_bracketed(rest: &str) -> bool
    ensures { result ≡ is_bracketed rest.now }
{
    match rest.split_once(']') {
        Some((_, end)) => is_end(end),
        None => false,
    }
}

// Whether a text is a host's name, an IPv4 address or an IPv6 address in brackets, with a port.
#[tactic(auto, unfolding(crate::specs::Place::is_member))]
fn is_member(text: &str) -> bool
    ensures { result ≡ is_member text.now }
{
    match text.strip_prefix("[") {
        Some(rest) => is_bracketed(rest),
        None => is_plain(text),
    }
}

// The first fault of members, of which there may be this many at most.
#[tactic(auto, unfolding(crate::specs::Place::members_fault))]
fn members_fault(most: usize, text: &str) -> Option<PlaceFault>
    ensures { result ≡ members_fault most text.now }
{
    if most == 0 {
        return Some(PlaceFault::TooManyMembers);
    }
    match text.split_once(',') {
        Some((first, rest)) => {
            if is_member(first) {
                members_fault(most - 1, rest)
            } else {
                Some(PlaceFault::BadMember)
            }
        }
        None => {
            if is_member(text) {
                None
            } else {
                Some(PlaceFault::BadMember)
            }
        }
    }
}

#[tactic(auto, unfolding(crate::specs::Place::name_fault))]
fn name_fault(text: &str) -> Option<PlaceFault>
    ensures { result ≡ name_fault text.now }
{
    if text.is_empty() {
        Some(PlaceFault::NoName)
    } else if is_store_name(text) {
        None
    } else {
        Some(PlaceFault::BadName)
    }
}

// The first fault of members and a name.
#[tactic(auto, unfolding(crate::specs::Place::parts_fault))]
fn parts_fault(members: &str, name: &str) -> Option<PlaceFault>
    ensures { result ≡ parts_fault members.now name.now }
{
    if members.is_empty() {
        return Some(PlaceFault::NoMember);
    }
    match members_fault(MAX_MEMBERS, members) {
        Some(fault) => Some(fault),
        None => name_fault(name),
    }
}

// The place that a text says after its front.
#[tactic(auto, unfolding(crate::specs::Place::parts_of))]
fn place_in(rest: &str) -> Result<EtcdPlace<'_>, PlaceFault>
    ensures ok { IfOk result (λ place. parts_of rest.now ≡ Ok (place.members.now, place.name.now)) }
    ensures err { IfErr result (λ fault. parts_of rest.now ≡ Err fault) }
{
    let Some((members, name)) = rest.split_once('/') else {
        return Err(PlaceFault::NoName);
    };
    match parts_fault(members, name) {
        Some(fault) => Err(fault),
        None => Ok(EtcdPlace { members, name }),
    }
}

impl<'t> EtcdPlace<'t> {
    /// The place that a text says, as `etcd://HOST:PORT[,HOST:PORT..]/NAME`.
    ///
    /// Refused:
    /// - `NotEtcd` if it doesn't begin with `etcd://`;
    /// - `NoName` if no `/` follows, or nothing after it;
    /// - `NoMember`, `BadMember` and `TooManyMembers` if the members aren't 1 to 8 of `HOST:PORT`;
    /// - `BadName` if the name isn't 1 to 64 letters, digits, `-`, `_` and `.`.
    pub fn read(text: &'t str) -> Result<EtcdPlace<'t>, PlaceFault>
        ensures ok { IfOk result (λ place. place_of text.now ≡ Ok (place.members.now, place.name.now)) }
        ensures err { IfErr result (λ fault. place_of text.now ≡ Err fault) }
    {
        match text.strip_prefix("etcd://") {
            Some(rest) => place_in(rest),
            None => Err(PlaceFault::NotEtcd),
        }
    }
}

impl fmt::Display for EtcdPlace<'_> {
    fn fmt<W: fmt::Write>(&self, f: &mut fmt::Formatter<W>) -> fmt::Result {
        let (members, name) = (self.members, self.name);
        write!(f, "etcd://{members}/{name}")
    }
}
