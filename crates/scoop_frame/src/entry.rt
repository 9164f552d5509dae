//! Entries as bytes.

ghost use Rattle.std.specs.Prelude.{◌≡◌, ◌≤◌, ◌+◌, length};
ghost use Rattle.scoop_message.specs.Range.{IsRequest, IsEntry};
ghost use Rattle.scoop_frame.specs.Body.{request_bytes, entry_bytes, ReadsFirst};
ghost use Rattle.scoop_frame.specs.Buffer.{overwritten, written};

use crate::number::{put_u16, put_u64, u16_at, u64_at};
use scoop_message::limits::MAX_ARGS;
use scoop_message::{Args, Entry, Request};

/// Bytes of the longest entry.
pub const MAX_ENTRY: usize = 36;

const CALL: u8 = 1;

const QUERY: u8 = 2;

const END: u8 = 3;

// Writes a request from a place on, and returns where it ends.
fn put_request(out: &mut [u8], at: usize, request: &Request) -> usize
    requires { at + 35 ≤ length out.old }
    ensures bytes { out.new ≡ overwritten at (request_bytes request.now) out.old }
    ensures end { result ≡ at + length (request_bytes request.now) }
    ensures limit { result ≤ at + 35 }
    ensures range { IsRequest request.now }
{
    let count = request.args.len();
    put_u16(out, at, request.op);
    out[at + 2] = count as u8;
    for (i, arg) in request.args.as_slice().iter().enumerate() {
        put_u64(out, at + 3 + 8 * i, *arg);
    }
    at + 3 + 8 * count
}

/// Writes an entry from a place on, and returns where it ends.
pub fn put_entry(out: &mut [u8], at: usize, entry: &Entry) -> usize
    requires { at + MAX_ENTRY ≤ length out.old }
    ensures bytes { out.new ≡ overwritten at (entry_bytes entry.now) out.old }
    ensures end { result ≡ at + length (entry_bytes entry.now) }
    ensures limit { result ≤ at + MAX_ENTRY }
    ensures range { IsEntry entry.now }
{
    match entry {
        Entry::Call(request) => {
            out[at] = CALL;
            put_request(out, at + 1, request)
        }
        Entry::Query(request) => {
            out[at] = QUERY;
            put_request(out, at + 1, request)
        }
        Entry::End => {
            out[at] = END;
            at + 1
        }
    }
}

/// Writes an entry to the front of a buffer, leaves the rest, and returns how many bytes it takes.
pub fn entry_to(entry: &Entry, out: &mut [u8; MAX_ENTRY]) -> usize
    ensures bytes { out.new ≡ written (entry_bytes entry.now) out.old }
    ensures len { result ≡ length (entry_bytes entry.now) }
    ensures limit { result ≤ MAX_ENTRY }
    ensures range { IsEntry entry.now }
{
    put_entry(out, 0, entry)
}

// The request that begins the bytes, and how many bytes it takes.
fn request_from(bytes: &[u8]) -> Option<(Request, usize)>
    ensures { ReadsFirst request_bytes IsRequest bytes.now result }
{
    if bytes.len() < 3 {
        return None;
    }
    let count = usize::from(bytes[2]);
    if count > MAX_ARGS {
        return None;
    }
    if bytes.len() < 3 + 8 * count {
        return None;
    }
    let mut items = [0; MAX_ARGS];
    for i in 0..count {
        items[i] = u64_at(bytes, 3 + 8 * i);
    }
    let args = Args::of(&items[..count]).unwrap();
    let op = u16_at(bytes, 0);
    Some((Request { op, args }, 3 + 8 * count))
}

/// The entry that begins the bytes, and how many bytes it takes. `None` if no entry begins them.
pub fn entry_from(bytes: &[u8]) -> Option<(Entry, usize)>
    ensures { ReadsFirst entry_bytes IsEntry bytes.now result }
{
    match bytes {
        [CALL, rest @ ..] => {
            let (request, len) = request_from(rest)?;
            Some((Entry::Call(request), 1 + len))
        }
        [QUERY, rest @ ..] => {
            let (request, len) = request_from(rest)?;
            Some((Entry::Query(request), 1 + len))
        }
        [END, ..] => Some((Entry::End, 1)),
        _ => None,
    }
}
