//! The keyed code of RFC 2104 over SHA-256.

ghost use Rattle.std.specs.Prelude.{◌≡◌, ◌++◌};
ghost use Rattle.sha2.specs.Sha256.{sha256};
ghost use Rattle.scoop_seal.specs.Hmac.{block_key, mixed, hmac};

use sha2::{Digest, Sha256};

// Bytes of one block of the hash.
const BLOCK_LEN: usize = 64;

// Bytes of a digest.
pub(crate) const DIGEST_LEN: usize = 32;

// The byte that is mixed into the key before the message.
pub(crate) const INNER: u8 = 0x36;

// The byte that is mixed into the key before the inner digest.
pub(crate) const OUTER: u8 = 0x5c;

// A key as one block.
pub(crate) fn block_of(key: &[u8]) -> [u8; BLOCK_LEN]
    ensures { result ≡ block_key key.now }
{
    let mut block = [0; BLOCK_LEN];
    if key.len() > BLOCK_LEN {
        let digest = Sha256::digest(key);
        block[..DIGEST_LEN].copy_from_slice(&digest);
    } else {
        block[..key.len()].copy_from_slice(key);
    }
    block
}

// A block with a byte mixed into each of its bytes.
pub(crate) fn mix(block: &[u8; BLOCK_LEN], byte: u8) -> [u8; BLOCK_LEN]
    ensures { result ≡ mixed block.now byte }
{
    let mut mixed = *block;
    for b in mixed.iter_mut() {
        *b ^= byte;
    }
    mixed
}

// The digest of two pieces as one message.
pub(crate) fn digest_of(first: &[u8], second: &[u8]) -> [u8; DIGEST_LEN]
    ensures { result ≡ sha256 (first.now ++ second.now) }
{
    let mut hasher = Sha256::new();
    hasher.update(first);
    hasher.update(second);
    hasher.finalize()
}

/// The code of a message under a key of any length, by RFC 2104 with SHA-256.
pub fn hmac(key: &[u8], message: &[u8]) -> [u8; DIGEST_LEN]
    ensures { result ≡ hmac key.now message.now }
{
    let block = block_of(key);
    let inner = digest_of(&mix(&block, INNER), message);
    digest_of(&mix(&block, OUTER), &inner)
}
