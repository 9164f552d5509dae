//! The key that seals the datagrams of one life of a system.

ghost use Rattle.std.specs.Prelude.{◌≡◌, ◌++◌};
ghost use Rattle.sha2.specs.Sha256.{sha256};
ghost use Rattle.scoop_seal.specs.Hmac.{hmac};
ghost use Rattle.scoop_seal.specs.System.{system_bytes};

use crate::mac::{DIGEST_LEN, INNER, OUTER, block_of, digest_of, mix};
use sha2::{Digest, Sha256};

// The bytes before those of a system's life and name. No frame begins with them.
const HEAD: &[u8] = b"scoop system";

// The digest of some bytes, and a system's life and name after them.
fn digest_before(first: &[u8], name: &[u8], life: u32) -> [u8; DIGEST_LEN]
    ensures { result ≡ sha256 (first.now ++ system_bytes name.now life) }
{
    let mut hasher = Sha256::new();
    hasher.update(first);
    hasher.update(HEAD);
    hasher.update(&life.to_be_bytes());
    hasher.update(name);
    hasher.finalize()
}

/// The code of a system's life and name under a key.
pub(crate) fn system_code(key: &[u8], name: &[u8], life: u32) -> [u8; DIGEST_LEN]
    ensures { result ≡ hmac key.now (system_bytes name.now life) }
{
    let block = block_of(key);
    let inner = digest_before(&mix(&block, INNER), name, life);
    digest_of(&mix(&block, OUTER), &inner)
}
