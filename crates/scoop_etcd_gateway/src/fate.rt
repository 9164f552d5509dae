//! The fate of a transaction whose answer was lost.

ghost use Rattle.std.specs.Prelude.{◌≡◌, option_map};
ghost use Rattle.scoop_etcd_calls.specs.Stored.{stored};
ghost use Rattle.scoop_etcd_gateway.specs.Fate.{same_bytes, asked_revision, guard_among, fate_of};

use scoop_etcd_calls::{Compare, Pair, Put, Txn};

/// The fate of a transaction, by a look-up.
#[derive(Clone, Copy, Debug, PartialEq, Eq)]
pub enum Fate {
    /// It wasn't made until then.
    Unmade,
    /// It was made at this revision.
    Made(u64),
    /// Another value was stored instead, or after it.
    Overtaken,
}

/// A put of a transaction, and the revision that its key must have before. At most one of several tries of such a
/// transaction takes effect.
#[derive(Clone, Copy)]
pub struct Guard<'a> {
    pub put: &'a Put,
    pub revision: u64,
}

fn same_bytes(a: &[u8], b: &[u8]) -> bool
    ensures { result ≡ same_bytes a.now b.now }
{
    a == b
}

// The revision that the comparisons ask of a key.
fn asked_revision(key: &[u8], compares: &[Compare]) -> Option<u64>
    ensures { result ≡ asked_revision key.now compares.now }
{
    for compare in compares {
        if let Compare::Revision(asked, revision) = compare {
            if same_bytes(asked.as_slice(), key) {
                return Some(*revision);
            }
        }
    }
    None
}

fn guard_among<'a>(compares: &[Compare], puts: &'a [Put]) -> Option<Guard<'a>>
    ensures { option_map (λ g. (g.put.now, g.revision)) result ≡ guard_among compares.now puts.now }
{
    for put in puts {
        if let Some(revision) = asked_revision(put.key.as_slice(), compares) {
            return Some(Guard { put, revision });
        }
    }
    None
}

/// The first put whose key must have a certain revision. `None` exactly if there is none; then two tries of the transaction
/// may both take effect.
pub fn guard_of(txn: &Txn) -> Option<Guard<'_>>
    ensures { option_map (λ g. (g.put.now, g.revision)) result ≡ guard_among txn.now.compares.items txn.now.puts.items }
{
    guard_among(txn.compares.as_slice(), txn.puts.as_slice())
}

/// The fate of the guard's transaction, by the pair under the guard's key, `None` if there is none.
pub fn fate_of(guard: Guard<'_>, found: Option<&Pair>) -> Fate
    ensures { result ≡ fate_of guard.entry.put.now.value.items guard.entry.revision (option_map (λ pair. stored pair.now) found.entry) }
{
    let Some(pair) = found else {
        return if guard.revision == 0 {
            Fate::Unmade
        } else {
            Fate::Overtaken
        };
    };
    if pair.revision == guard.revision {
        Fate::Unmade
    } else if same_bytes(pair.value.as_slice(), guard.put.value.as_slice()) {
        Fate::Made(pair.revision)
    } else {
        Fate::Overtaken
    }
}
