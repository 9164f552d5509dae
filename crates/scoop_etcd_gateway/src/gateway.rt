//! An etcd over HTTP.

ghost use Rattle.std.specs.Prelude.{◌≡◌, ◌<◌, [], IfOk, vec_len};
ghost use Rattle.scoop_etcd_gateway.specs.History.{IsHonest, IsAlone};
ghost use Rattle.scoop_etcd_gateway.specs.Told.{TellsFound, TellsOutcome, Tells};

use crate::call::{Answer, Call};
use crate::fate::guard_of;
use crate::members::Members;
use crate::settling::{Settled, ask_range, settle};
use crate::world::World;
use http_server::Log;
use scoop_etcd::{Etcd, EtcdError};
use scoop_etcd_calls::{
    AnswerFault, Found, Outcome, Range, Txn, range_text, read_found, read_outcome, txn_text,
};
use std::alloc::Global;
use std::marker::PhantomData;
use std::net::Net;
use std::time::Clock;
use thiserror::Error;

/// Members of an etcd, at most.
pub const MAX_MEMBERS: usize = 8;

// A call has so many milliseconds in all.
const CALL_MS: u64 = 5_000;

/// Why members are none that a gateway takes.
#[derive(Clone, Copy, Debug, PartialEq, Eq, Error)]
pub enum MembersError {
    /// There is none.
    #[error("an etcd has no member")]
    None,
    /// There are more than [`MAX_MEMBERS`].
    #[error("an etcd has more than 8 members")]
    TooMany,
}

/// An etcd, by its members. `W` says what stands there; no code reads it.
#[derive(Drop)]
pub struct Gateway<'a, R: Net, W: World> {
    alloc: Global,
    members: Members<'a, R>,
    calls: Log<Call, Answer>,
    world: PhantomData<W>,
}

// A range with its answer.
#[derive(Drop)]
struct Ranged {
    call: Call,
    answer: Answer,
    found: Found,
}

// A transaction with its answer.
#[derive(Drop)]
struct Transacted {
    call: Call,
    answer: Answer,
    outcome: Result<Outcome, EtcdError>,
}

// Why an answer can't be read.
fn unread(fault: AnswerFault) -> EtcdError {
    match fault {
        AnswerFault::OutOfMemory => EtcdError::OutOfMemory,
        _ => EtcdError::BadAnswer,
    }
}

// Asks the members for a range.
fn find<R: Net + Clock>(
    alloc: Global,
    members: &mut Members<'_, R>,
    range: &Range,
) -> Result<Ranged, EtcdError>
    ensures { IfOk result (λ r. TellsFound range.now r.call r.answer r.found) }
{
    let Ok(text) = range_text(alloc, range) else {
        return Err(EtcdError::OutOfMemory);
    };
    let Some(end) = members.end_after(CALL_MS) else {
        return Err(EtcdError::Unreachable);
    };
    let body = ask_range(members, text.as_bytes(), end)?;
    match read_found(alloc, body.as_slice()) {
        Ok(found) => Ok(Ranged {
            call: Call::Ranges(text),
            answer: Answer::Body(body),
            found,
        }),
        Err(fault) => Err(unread(fault)),
    }
}

// The answer to a transaction and its outcome, by the body of the response.
fn told(alloc: Global, body: Vec<u8>) -> (Answer, Result<Outcome, EtcdError>)
    ensures { TellsOutcome result.0 result.1 }
{
    match read_outcome(alloc, body.as_slice()) {
        Ok(outcome) => (Answer::Body(body), Ok(outcome)),
        Err(fault) => (Answer::Lost, Err(unread(fault))),
    }
}

// Asks the members for a transaction. An error means that it wasn't made.
fn make<R: Net + Clock>(
    alloc: Global,
    members: &mut Members<'_, R>,
    txn: &Txn,
) -> Result<Transacted, EtcdError>
    ensures { IfOk result (λ t. Tells txn.now t.call t.answer t.outcome) }
{
    let Ok(text) = txn_text(alloc, txn) else {
        return Err(EtcdError::OutOfMemory);
    };
    let Some(end) = members.end_after(CALL_MS) else {
        return Err(EtcdError::Unreachable);
    };
    match settle(alloc, members, guard_of(txn), text.as_bytes(), end) {
        Settled::Body(body) => {
            let (answer, outcome) = told(alloc, body);
            Ok(Transacted {
                call: Call::Transacts(text),
                answer,
                outcome,
            })
        }
        Settled::Made(revision) => Ok(Transacted {
            call: Call::Transacts(text),
            answer: Answer::Made(revision),
            outcome: Ok(Outcome {
                succeeded: true,
                revision,
            }),
        }),
        Settled::Unmade(error) => Err(error),
        Settled::Lost(error) => Ok(Transacted {
            call: Call::Transacts(text),
            answer: Answer::Lost,
            outcome: Err(error),
        }),
    }
}

impl<'a, R: Net + Clock, W: World> Gateway<'a, R, W> {
    /// The etcd with these members, each as `HOST:PORT`. The value of the world is used up.
    pub fn new(
        rt: &'a R,
        alloc: Global,
        names: Vec<String>,
        _world: W,
    ) -> Result<Gateway<'a, R, W>, MembersError>
        ensures { IfOk result (λ g. g.calls.items ≡ []) }
    {
        if names.is_empty() {
            return Err(MembersError::None);
        }
        if names.len() > MAX_MEMBERS {
            return Err(MembersError::TooMany);
        }
        Ok(Gateway {
            alloc,
            members: Members::new(rt, alloc, names),
            calls: Log::new(),
            world: PhantomData,
        })
    }
}

impl<'a, R: Net + Clock, W: World> Etcd for Gateway<'a, R, W> {
    ghost contents = { λ g. W.World.after g.calls.items };

    ghost is_honest = { λ g. IsHonest W.World.after g.calls.items };

    ghost is_alone = { λ g. IsAlone W.World.after g.calls.items };

    fn range(&mut self, range: &Range) -> Result<Found, EtcdError> {
        match find(self.alloc, &mut self.members, range) {
            Ok(ranged) => {
                self.calls = self.calls.and(&ranged.call, &ranged.answer);
                Ok(ranged.found)
            }
            Err(error) => Err(error),
        }
    }

    fn transact(&mut self, txn: &Txn) -> Result<Outcome, EtcdError> {
        match make(self.alloc, &mut self.members, txn) {
            Ok(transacted) => {
                self.calls = self.calls.and(&transacted.call, &transacted.answer);
                transacted.outcome
            }
            Err(error) => Err(error),
        }
    }
}
