//! The value under a handler's key.

ghost use Rattle.std.specs.Prelude.{◌≡◌, ◌≤◌, length, IfOk, IfSome};
ghost use Rattle.scoop_etcd.specs.Packed.{IsPacked, SplitsAt};

use scoop_frame::u64_at;
use scoop_message::OutOfMemory;
use std::alloc::Global;

/// Bytes of the image's length.
pub(crate) const FRONT_LEN: usize = 8;

/// The value of an image and the pending entries. `OutOfMemory` is the one refusal.
pub(crate) fn pack(alloc: Global, image: &[u8], entries: &[u8]) -> Result<Vec<u8>, OutOfMemory>
    ensures { IfOk result (λ value. IsPacked value.items image.now entries.now) }
{
    let len = image.len() as u64;
    let mut value = Vec::from_slice(alloc, &len.to_be_bytes())?;
    value.extend_from_slice(image)?;
    value.extend_from_slice(entries)?;
    Ok(value)
}

/// The place at which the pending entries begin. `None` exactly if the value is none of an image and entries.
pub(crate) fn split_place(value: &[u8]) -> Option<usize>
    ensures place { SplitsAt value.now result }
    ensures within { IfSome result (λ at. (8 ≤ at) × (at ≤ length value.now)) }
{
    if value.len() < FRONT_LEN {
        return None;
    }
    let rest = value.len() - FRONT_LEN;
    let len = u64_at(value, 0);
    if len > rest as u64 {
        return None;
    }
    Some(FRONT_LEN + len as usize)
}
