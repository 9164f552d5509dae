//! Reads of one key.

ghost use Rattle.std.specs.Prelude.{◌≡◌, IfOk, option_map};
ghost use Rattle.scoop_etcd.specs.Etcd.{SameKeys, kept_of, revision_of};

use crate::etcd::{Etcd, EtcdError};
use scoop_etcd_calls::{Pair, Range};
use std::alloc::Global;

/// The pair under the key, `None` if it is absent. Refused with the errors of a range.
pub(crate) fn find<E: Etcd>(
    alloc: Global,
    etcd: &mut E,
    key: &[u8],
) -> Result<Option<Pair>, EtcdError>
    ensures found { E.is_honest etcd.new → IfOk result (λ pair. (E.contents etcd.new).under key.now ≡ option_map kept_of pair) }
    ensures stays { E.is_alone etcd.new → SameKeys (E.contents etcd.old) (E.contents etcd.new) }
    ensures honest { E.is_honest etcd.new → E.is_honest etcd.old }
    ensures alone { E.is_alone etcd.new → E.is_alone etcd.old }
{
    let Ok(from) = Vec::from_slice(alloc, key) else {
        return Err(EtcdError::OutOfMemory);
    };
    let found = etcd.range(&Range { from, to: None })?;
    let mut pairs = found.pairs;
    Ok(pairs.pop())
}

/// The revision of the pair that was found, 0 if none was.
pub(crate) fn revision_of(found: &Option<Pair>) -> u64
    ensures { result ≡ revision_of (option_map kept_of found.now) }
{
    match found {
        Some(pair) => pair.revision,
        None => 0,
    }
}
