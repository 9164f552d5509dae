//! Calls that are tried until they are answered.

use crate::fate::{Fate, Guard, fate_of};
use crate::members::Members;
use crate::reply::Reply;
use scoop_etcd::EtcdError;
use scoop_etcd_calls::{Range, range_text, read_found, read_outcome};
use std::alloc::Global;
use std::net::Net;
use std::time::{Clock, Instant};

const RANGE_PATH: &[u8] = b"/v3/kv/range";

const TXN_PATH: &[u8] = b"/v3/kv/txn";

// Tries of one call, at most.
const MAX_TRIES: u32 = 1_000;

/// The result of a transaction, after all its tries.
pub(crate) enum Settled {
    /// The body of its answer.
    Body(Vec<u8>),
    /// Its answer was lost, and it was made at this revision.
    Made(u64),
    /// It wasn't made.
    Unmade(EtcdError),
    /// Its answer was lost, and it may have been made.
    Lost(EtcdError),
}

/// Asks the members for a range until one answers. Returns the body of the answer.
pub(crate) fn ask_range<R: Net + Clock>(
    members: &mut Members<'_, R>,
    body: &[u8],
    end: Instant,
) -> Result<Vec<u8>, EtcdError> {
    for _ in 0..MAX_TRIES {
        match members.ask(RANGE_PATH, body, end) {
            Reply::Body(answer) => return Ok(answer),
            Reply::Refused(error) => return Err(error),
            Reply::Unsent | Reply::Lost => {}
        }
        if !members.may_go_on(end) {
            break;
        }
    }
    Err(EtcdError::Unreachable)
}

// Looks up what became of a transaction. `None` if that can't be found out.
fn look_up<R: Net + Clock>(
    alloc: Global,
    members: &mut Members<'_, R>,
    guard: Guard<'_>,
    end: Instant,
) -> Option<Fate> {
    let from = Vec::from_slice(alloc, guard.put.key.as_slice()).ok()?;
    let text = range_text(alloc, &Range { from, to: None }).ok()?;
    let body = ask_range(members, text.as_bytes(), end).ok()?;
    let found = read_found(alloc, body.as_slice()).ok()?;
    Some(fate_of(guard, found.pairs.as_slice().first()))
}

// Whether the answer says that a comparison didn't hold.
fn has_failed(alloc: Global, answer: &[u8]) -> bool {
    match read_outcome(alloc, answer) {
        Ok(outcome) => !outcome.succeeded,
        Err(_) => false,
    }
}

// The result of a transaction that was answered. `doubt` is its guard if an earlier try may have been made. If this try
// failed, that one may be why.
fn answered<R: Net + Clock>(
    alloc: Global,
    members: &mut Members<'_, R>,
    doubt: Option<Guard<'_>>,
    answer: Vec<u8>,
    end: Instant,
) -> Settled {
    let Some(guard) = doubt else {
        return Settled::Body(answer);
    };
    if !has_failed(alloc, answer.as_slice()) {
        return Settled::Body(answer);
    }
    match look_up(alloc, members, guard, end) {
        Some(Fate::Made(revision)) => Settled::Made(revision),
        Some(Fate::Unmade | Fate::Overtaken) => Settled::Body(answer),
        None => Settled::Lost(EtcdError::Unreachable),
    }
}

// The result of a transaction that failed. `doubt` is its guard if a try may have been made.
fn failed(doubt: Option<Guard<'_>>, error: EtcdError) -> Settled {
    match doubt {
        Some(_) => Settled::Lost(error),
        None => Settled::Unmade(error),
    }
}

/// Asks the members for a transaction until one answers. If an answer is lost, the transaction is looked up before it is tried
/// again, by its guard; with no guard it isn't tried again. So at most one try takes effect.
pub(crate) fn settle<R: Net + Clock>(
    alloc: Global,
    members: &mut Members<'_, R>,
    guard: Option<Guard<'_>>,
    body: &[u8],
    end: Instant,
) -> Settled {
    let mut doubt = None;
    for _ in 0..MAX_TRIES {
        match members.ask(TXN_PATH, body, end) {
            Reply::Body(answer) => return answered(alloc, members, doubt, answer, end),
            Reply::Refused(error) => return failed(doubt, error),
            Reply::Unsent => {}
            Reply::Lost => match guard {
                Some(guard) => doubt = Some(guard),
                None => return Settled::Lost(EtcdError::Unreachable),
            },
        }
        if !members.may_go_on(end) {
            break;
        }
        if let Some(guard) = doubt {
            match look_up(alloc, members, guard, end) {
                Some(Fate::Made(revision)) => return Settled::Made(revision),
                Some(Fate::Unmade | Fate::Overtaken) => {}
                None => break,
            }
        }
    }
    failed(doubt, EtcdError::Unreachable)
}
