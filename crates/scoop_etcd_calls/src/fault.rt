//! Faults of answers.

use std::alloc::{AllocError, AllocFailed};
use std::fmt;
use thiserror::Error;

/// A member of an answer. Printed by its name in JSON.
#[derive(Clone, Copy, Debug, PartialEq, Eq)]
pub enum Field {
    /// `header`
    Header,
    /// `revision`, of the header.
    Revision,
    /// `kvs`, or one of its items.
    Pairs,
    /// `key`
    Key,
    /// `value`
    Value,
    /// `mod_revision`
    ModRevision,
    /// `succeeded`
    Succeeded,
    /// `code`
    Code,
    /// `message`
    Message,
}

impl Field {
    ghost use Rattle.std.specs.Prelude.{◌≡◌};
    ghost use Rattle.scoop_etcd_calls.specs.Answer.{field_text};

    /// The name in JSON.
    pub fn as_str(self) -> &'static str
        ensures { result.now ≡ field_text self }
    {
        match self {
            Field::Header => "header",
            Field::Revision => "revision",
            Field::Pairs => "kvs",
            Field::Key => "key",
            Field::Value => "value",
            Field::ModRevision => "mod_revision",
            Field::Succeeded => "succeeded",
            Field::Code => "code",
            Field::Message => "message",
        }
    }
}

impl fmt::Display for Field {
    ghost use Rattle.std.specs.Prelude.{Some};
    ghost use Rattle.scoop_etcd_calls.specs.Answer.{field_text};

    ghost output = { λ f. Some (field_text f) };

    fn fmt<W: fmt::Write>(&self, f: &mut fmt::Formatter<W>) -> fmt::Result {
        f.write_str(self.as_str())
    }
}

/// Why the body of an answer can't be read.
#[derive(Clone, Copy, Debug, PartialEq, Eq, Error)]
pub enum AnswerFault {
    /// The body isn't UTF-8, or isn't JSON.
    #[error("the answer is not JSON")]
    NotJson,
    /// The body is JSON, and no object.
    #[error("the answer is not an object")]
    NotAnObject,
    /// The member is missing, empty or 0, which an etcd leaves out.
    #[error("the answer has no {0}")]
    Missing(Field),
    /// The member's value is of another kind.
    #[error("{0} of the answer is of another kind")]
    OtherKind(Field),
    /// The member's text isn't base64 with padding.
    #[error("{0} of the answer is not base64")]
    NotBase64(Field),
    /// The member's text isn't decimal digits of a number below 2^64.
    #[error("{0} of the answer is not a number of 64 bits")]
    NotANumber(Field),
    /// A key isn't above the key before it.
    #[error("the keys of the answer do not ascend")]
    NotAscending,
    /// A growth of memory was refused.
    #[error("out of memory")]
    OutOfMemory,
}

impl From<AllocError> for AnswerFault {
    ghost use Rattle.std.specs.Prelude.{◌≡◌};
    ghost use Rattle.scoop_etcd_calls.specs.declared.fault.AnswerFault.TheVariants.{OutOfMemory};

    ghost from_gives = { λ _ e. e ≡ OutOfMemory };

    fn from(_: AllocError) -> AnswerFault {
        AnswerFault::OutOfMemory
    }
}

impl<T: Drop> From<AllocFailed<T>> for AnswerFault {
    ghost use Rattle.std.specs.Prelude.{◌≡◌};
    ghost use Rattle.scoop_etcd_calls.specs.declared.fault.AnswerFault.TheVariants.{OutOfMemory};

    ghost from_gives = { λ _ e. e ≡ OutOfMemory };

    fn from(_: AllocFailed<T>) -> AnswerFault {
        AnswerFault::OutOfMemory
    }
}
