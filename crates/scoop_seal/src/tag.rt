//! Tags after datagrams.

ghost use Rattle.std.specs.Prelude.{◌≡◌, ◌+◌, ◌≤◌, ◌↔◌, length, take, IsTrue, IfSome, IfNone};
ghost use Rattle.scoop_seal.specs.Tag.{tag, sealed, IsForged};

use crate::key::Key;
use crate::mac::hmac;
use scoop_message::limits::BUFFER_LEN;

/// Bytes of a tag.
pub const TAG_LEN: usize = 16;

/// The most bytes that a datagram can carry beside their tag. The longest frame is shorter.
pub const MAX_BYTES: usize = 176;

const _: () = prove!(MAX_BYTES + TAG_LEN == BUFFER_LEN);

// The tag of some bytes.
fn tag(key: &Key, bytes: &[u8]) -> [u8; TAG_LEN]
    ensures { result ≡ tag key.now bytes.now }
{
    let mut tag = [0; TAG_LEN];
    tag.copy_from_slice(&hmac(key.bytes(), bytes)[..TAG_LEN]);
    tag
}

// Whether two tags are the same. It looks at each byte in any case, so that its time reveals nothing of them.
fn same_tag(left: &[u8; TAG_LEN], right: &[u8; TAG_LEN]) -> bool
    ensures { IsTrue result ↔ (left.now ≡ right.now) }
{
    let mut difference = 0;
    for i in 0..TAG_LEN {
        difference |= left[i] ^ right[i];
    }
    difference == 0
}

/// Writes some bytes and their tag to the start of a buffer, and returns their length.
pub(crate) fn seal(key: &Key, bytes: &[u8], buffer: &mut [u8; BUFFER_LEN]) -> usize
    requires { length bytes.now ≤ MAX_BYTES }
    ensures len { result ≡ length bytes.now + TAG_LEN }
    ensures sealed { take result buffer.new ≡ sealed key.now bytes.now }
{
    let len = bytes.len();
    buffer[..len].copy_from_slice(bytes);
    let tag = tag(key, bytes);
    buffer[len..len + TAG_LEN].copy_from_slice(&tag);
    len + TAG_LEN
}

/// The number of bytes in a datagram that are followed by their tag, if the rest of it is that tag.
pub(crate) fn opened(key: &Key, datagram: &[u8]) -> Option<usize>
    ensures forged { IfNone result (IsForged key.now datagram.now) }
    ensures len { IfSome result (λ n. n + TAG_LEN ≡ length datagram.now) }
    ensures genuine { IfSome result (λ n. datagram.now ≡ sealed key.now (take n datagram.now)) }
{
    let len = datagram.len().checked_sub(TAG_LEN)?;
    let mut behind = [0; TAG_LEN];
    behind.copy_from_slice(&datagram[len..]);
    if same_tag(&tag(key, &datagram[..len]), &behind) {
        Some(len)
    } else {
        None
    }
}
