//! The place of an End in a list of entries, and the test for a private queue.

ghost use Rattle.std.specs.Prelude.{◌≡◌, ◌↔◌, ◌&&◌, not, if◌then◌else◌, length, IsTrue};
ghost use Rattle.scoop_message.specs.Entries.{end_only_last, ends};
ghost use Rattle.scoop_queue.specs.Queue.{queue_with};
ghost use Rattle.scoop_queue.specs.Sound.{IsQueue};

use crate::state::{Head, QueueState};
use scoop_message::Entry;
use scoop_message::limits::MAX_PENDING;

// Whether no End stands before the last entry, and the last is an End exactly if `wanted`.
fn has_ending(wanted: bool, entries: &[Entry]) -> bool
    ensures { result ≡ end_only_last entries.now && (if wanted then ends entries.now else not (ends entries.now)) }
{
    match entries {
        [] => !wanted,
        [last] => last.is_end() == wanted,
        [first, rest @ ..] => !first.is_end() && has_ending(wanted, rest),
    }
}

/// Whether these are the head and the entries of a private queue.
pub(crate) fn is_queue(head: Head, entries: &[Entry]) -> bool
    ensures { IsTrue result ↔ IsQueue (queue_with head entries.now) }
{
    let limit = match head.state {
        QueueState::Open => u64::from(u32::MAX),
        QueueState::Ended | QueueState::Cut => u64::from(u32::MAX) + 1,
    };
    head.first >= 1
        && entries.len() <= MAX_PENDING
        && u64::from(head.first) + entries.len() as u64 <= limit
        && has_ending(matches!(head.state, QueueState::Ended), entries)
        && (!matches!(head.state, QueueState::Cut) || !entries.is_empty())
}
