//! The keys of a store, under its name.

ghost use Rattle.std.specs.Prelude.{◌≡◌, IfOk};
ghost use Rattle.std.specs.List.{list_all};
ghost use Rattle.hex.specs.Hex.{encode_lower};
ghost use Rattle.scoop_etcd.specs.Keys.{is_name, is_name_byte, numbered, handler_key, client_key, owner_key};

use itoa::Buffer;
use scoop_message::{ClientId, HandlerId, OutOfMemory};
use std::alloc::Global;

/// Bytes of the longest name.
const MAX_NAME_LEN: usize = 64;

/// The party that a store belongs to.
#[derive(Clone, Copy, Debug, PartialEq, Eq)]
pub enum Owner {
    /// The node with this number.
    Node(u32),
    /// A client.
    Client(ClientId),
}

/// The name of a store, the key of its owner, and the token that stands there.
#[derive(Drop)]
pub(crate) struct Keys {
    pub(crate) name: Vec<u8>,
    pub(crate) owner: Vec<u8>,
    pub(crate) token: Vec<u8>,
}

impl Keys {
    /// The keys under a name. `OutOfMemory` is the one refusal.
    pub(crate) fn new(
        alloc: Global,
        name: &[u8],
        owner: Owner,
        token: [u8; 16],
    ) -> Result<Keys, OutOfMemory>
        ensures name { IfOk result (λ keys. keys.name.items ≡ name.now) }
        ensures owner { IfOk result (λ keys. keys.owner.items ≡ owner_key name.now owner) }
        ensures token { IfOk result (λ keys. keys.token.items ≡ encode_lower token) }
    {
        let digits = hex::encode(alloc, token)?;
        Ok(Keys {
            name: Vec::from_slice(alloc, name)?,
            owner: owner_key(alloc, name, owner)?,
            token: digits.into_bytes(),
        })
    }
}

/// Whether a text names a store: 1 to 64 letters, digits, `-`, `_` and `.`.
pub fn is_store_name(text: &str) -> bool
    ensures { result ≡ is_name text.now }
{
    !text.is_empty() && text.len() <= MAX_NAME_LEN && has_name_bytes(text.as_bytes())
}

fn has_name_bytes(text: &[u8]) -> bool
    ensures { result ≡ list_all is_name_byte text.now }
{
    text.iter().all(|byte| is_name_byte(*byte))
}

fn is_name_byte(byte: u8) -> bool
    ensures { result ≡ is_name_byte byte }
{
    matches!(byte, b'A'..=b'Z' | b'a'..=b'z' | b'0'..=b'9' | b'-' | b'_' | b'.')
}

// The name, a text and a number.
fn numbered(alloc: Global, name: &[u8], between: &[u8], number: u32) -> Result<Vec<u8>, OutOfMemory>
    ensures { IfOk result (λ key. key.items ≡ numbered name.now between.now number) }
{
    let mut key = Vec::from_slice(alloc, name)?;
    key.extend_from_slice(between)?;
    let mut digits = Buffer::new();
    key.extend_from_slice(digits.format(number).as_bytes())?;
    Ok(key)
}

/// The key of a handler's state.
pub fn handler_key(alloc: Global, name: &[u8], handler: HandlerId) -> Result<Vec<u8>, OutOfMemory>
    ensures { IfOk result (λ key. key.items ≡ handler_key name.now handler.0) }
{
    numbered(alloc, name, b"/handlers/", handler.0)
}

/// The key of a client's incarnation.
pub fn client_key(alloc: Global, name: &[u8], client: ClientId) -> Result<Vec<u8>, OutOfMemory>
    ensures { IfOk result (λ key. key.items ≡ client_key name.now client.0) }
{
    numbered(alloc, name, b"/clients/", client.0)
}

/// The key of the owner's token.
pub fn owner_key(alloc: Global, name: &[u8], owner: Owner) -> Result<Vec<u8>, OutOfMemory>
    ensures { IfOk result (λ key. key.items ≡ owner_key name.now owner) }
{
    match owner {
        Owner::Node(number) => numbered(alloc, name, b"/owner/node/", number),
        Owner::Client(client) => numbered(alloc, name, b"/owner/client/", client.0),
    }
}
