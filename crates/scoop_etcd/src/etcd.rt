//! The contract of every etcd.

ghost use Rattle.std.specs.Prelude.{IfOk, OnErr};
ghost use Rattle.scoop_etcd.specs.Etcd.{Contents, Answers, Finds, SameKeys};

use scoop_etcd_calls::{Found, Outcome, Range, Txn};
use thiserror::Error;

/// Why a call of an etcd has no answer.
#[derive(Clone, Copy, Debug, PartialEq, Eq, Error)]
pub enum EtcdError {
    /// A growth of memory was refused.
    #[error("out of memory")]
    OutOfMemory,
    /// The etcd gave no answer within the time.
    #[error("the etcd can't be reached")]
    Unreachable,
    /// The etcd has used up its quota of disk space.
    #[error("the etcd has no space left")]
    NoSpace,
    /// The etcd refused the call for another reason.
    #[error("the etcd refused the call")]
    Refused,
    /// The response is no answer to the call.
    #[error("the etcd's answer can't be read")]
    BadAnswer,
}

/// A store of bytes under keys, on a server that other programs write too.
///
/// Contracts see the server's contents after the last call, under the keys that the caller writes or asks for. Other
/// keys may be taken to stand as they first did. The revision is the server's: every program's puts raise it. So a
/// caller is alone while no other program writes its keys, whatever others write under theirs.
///
/// A call that returns an error has changed nothing, as far as the caller knows: the server may have made a transaction whose
/// answer was lost. A transaction that was made so counts as another's, and so does one whose fate could not be found out.
/// From then on the caller isn't alone, and clauses about a caller that is alone no longer apply. Clauses about the
/// answers of an honest server still apply.
pub trait Etcd: Drop {
    // The server's contents under the keys that this caller writes or asks for. Other keys may stand as they first did.
    ghost contents: { Self → Contents };

    // The server does what it answers, and keeps what it answered.
    ghost is_honest: { Self → Type 0 };

    // Only this caller has written the keys that it writes or asks for, since it began; and no transaction of its own was made
    // that it saw fail.
    ghost is_alone: { Self → Type 0 };

    /// The pairs of the keys that the range asks for.
    ///
    /// Refused, with the errors of [`EtcdError`].
    fn range(&mut self, range: &Range) -> Result<Found, EtcdError>
        ensures found { is_honest self.new → IfOk result (Finds (contents self.new) range.now) }
        ensures stays { is_alone self.new → SameKeys (contents self.old) (contents self.new) }
        ensures honest { is_honest self.new → is_honest self.old }
        ensures alone { is_alone self.new → is_alone self.old };

    /// Makes the transaction: if all comparisons hold, all puts in one step. It puts each key once at most.
    ///
    /// Refused, with the errors of [`EtcdError`].
    fn transact(&mut self, txn: &Txn) -> Result<Outcome, EtcdError>
        ensures answered { is_honest self.new → IfOk result (Answers (is_alone self.new) (contents self.old) (contents self.new) txn.now) }
        ensures stays { is_alone self.new → OnErr result (SameKeys (contents self.old) (contents self.new)) }
        ensures honest { is_honest self.new → is_honest self.old }
        ensures alone { is_alone self.new → is_alone self.old };
}
