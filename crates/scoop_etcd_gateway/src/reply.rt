//! The result of one try of a call.

ghost use Rattle.std.specs.Prelude.{◌≡◌};
ghost use Rattle.scoop_etcd_gateway.specs.Refusal.{is_final};

use crate::exchange::Response;
use scoop_etcd::EtcdError;
use scoop_etcd_calls::{Refusal, read_refusal};
use std::alloc::Global;

// The codes of gRPC that say that nothing was done: a bad argument, no such thing, one that exists, no permission, no room, a
// bad state, out of range, not implemented, and no user.
pub(crate) const FINAL_CODES: [u64; 9] = [3, 5, 6, 7, 8, 9, 11, 12, 16];

// The code of a store with no room left, and of a member with too many calls.
const NO_ROOM: u64 = 8;

/// The result of one try of a call.
pub(crate) enum Reply {
    /// The body of the answer.
    Body(Vec<u8>),
    /// The member refused the call, and did nothing.
    Refused(EtcdError),
    /// The call didn't reach the member.
    Unsent,
    /// The call may have reached the member. No answer came, or one that leaves open what was done.
    Lost,
}

impl Reply {
    /// Whether another member may answer.
    pub(crate) fn has_failed(&self) -> bool {
        match self {
            Reply::Body(_) | Reply::Refused(_) => false,
            Reply::Unsent | Reply::Lost => true,
        }
    }
}

fn is_final(code: u64) -> bool
    ensures { result ≡ is_final code }
{
    FINAL_CODES.iter().any(|final_code| *final_code == code)
}

// The refusal as an error, if it is final.
fn error_of(refusal: &Refusal) -> Option<EtcdError> {
    if refusal.code == NO_ROOM && refusal.message.as_str().contains("space exceeded") {
        Some(EtcdError::NoSpace)
    } else if is_final(refusal.code) {
        Some(EtcdError::Refused)
    } else {
        None
    }
}

/// The reply that a response stands for.
pub(crate) fn reply_of(alloc: Global, response: Response) -> Reply {
    if response.status == 200 {
        return Reply::Body(response.body);
    }
    match read_refusal(alloc, response.body.as_slice()) {
        Ok(refusal) => match error_of(&refusal) {
            Some(error) => Reply::Refused(error),
            None => Reply::Lost,
        },
        Err(_) => Reply::Lost,
    }
}
