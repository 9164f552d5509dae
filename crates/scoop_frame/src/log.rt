//! The entries of a Log as the body of a frame.

ghost use Rattle.std.specs.Prelude.{◌≡◌, ◌≤◌, ◌+◌, ◌*◌, length};
ghost use Rattle.std.specs.List.{flat_map, AllByRecursion};
ghost use Rattle.scoop_message.specs.Range.{IsEntry, IsEntries};
ghost use Rattle.scoop_frame.specs.Body.{entry_bytes, log_bytes};
ghost use Rattle.scoop_frame.specs.Buffer.{overwritten};
ghost use Rattle.scoop_frame.specs.Log.{IsEntriesOrNone, IsLogOrNone};

use crate::entry::{MAX_ENTRY, entry_from, put_entry};
use crate::version::Version;
use scoop_message::limits::MAX_ENTRIES;
use scoop_message::{Entries, Entry};

/// Bytes of the longest body of a Log: a count and four entries.
pub const MAX_LOG: usize = 145;

// Writes entries one after the other from a place on, and returns where they end.
fn put_entries(out: &mut [u8], at: usize, entries: &[Entry]) -> usize
    requires { at + MAX_ENTRY * length entries.now ≤ length out.old }
    ensures bytes { out.new ≡ overwritten at (flat_map entry_bytes entries.now) out.old }
    ensures end { result ≡ at + length (flat_map entry_bytes entries.now) }
    ensures limit { result ≤ at + MAX_ENTRY * length entries.now }
    ensures range { AllByRecursion IsEntry entries.now }
{
    let mut end = at;
    for entry in entries {
        end = put_entry(out, end, entry);
    }
    end
}

/// Writes the body of a Log from a place on, and returns where it ends.
pub fn put_log(out: &mut [u8], at: usize, version: Version, entries: &Entries) -> usize
    requires { at + MAX_LOG ≤ length out.old }
    ensures bytes { out.new ≡ overwritten at (log_bytes version entries.now) out.old }
    ensures end { result ≡ at + length (log_bytes version entries.now) }
    ensures limit { result ≤ at + MAX_LOG }
    ensures range { IsEntries entries.now }
{
    let count = entries.len();
    match version {
        Version::One => put_entries(out, at, entries.as_slice()),
        Version::Two => {
            out[at] = count as u8;
            put_entries(out, at + 1, entries.as_slice())
        }
    }
}

// The entries that the bytes are, all of them, one after the other, if there are that many.
fn entries_of(bytes: &[u8], count: usize) -> Option<Entries>
    requires { count ≤ MAX_ENTRIES }
    ensures { IsEntriesOrNone count bytes.now result }
{
    let mut items = [Entry::End; MAX_ENTRIES];
    let mut rest = bytes;
    for i in 0..count {
        let Some((entry, len)) = entry_from(rest) else {
            return None;
        };
        items[i] = entry;
        rest = &rest[len..];
    }
    if !rest.is_empty() {
        return None;
    }
    match Entries::of(&items[..count]) {
        Ok(entries) => Some(entries),
        Err(_) => None,
    }
}

/// The entries whose body of that version the bytes are, all of them.
pub fn whole_log(version: Version, bytes: &[u8]) -> Option<Entries>
    ensures { IsLogOrNone version bytes.now result }
{
    match version {
        Version::One => entries_of(bytes, 1),
        Version::Two => {
            let [count, rest @ ..] = bytes else {
                return None;
            };
            let count = usize::from(*count);
            if count > MAX_ENTRIES {
                return None;
            }
            entries_of(rest, count)
        }
    }
}
