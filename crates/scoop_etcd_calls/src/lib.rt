//! The calls of an etcd and its answers, and both as JSON.
//!
//! A [`Range`] reads keys; a [`Txn`] compares some keys and, if all comparisons hold, puts others in one step.
//!
//! [`range_text`] and [`txn_text`] write the bodies of calls, in the form that the HTTP gateway of an etcd 3.4 takes.
//! [`read_found`], [`read_outcome`] and [`read_refusal`] read the bodies of its answers. Bytes are base64 there, numbers of
//! 64 bits are decimal digits in a string, and members with a default value are left out.
//!
//! ```
//! let range = Range {
//!     from: Vec::from_slice(alloc, b"a")?,
//!     to: None,
//! };
//! assert_eq!(rt; range_text(alloc, &range)?.as_str(), "{\"key\":\"YQ==\"}");
//! let body = b"{\"header\":{\"revision\":\"7\"},\"succeeded\":true}";
//! let outcome = Outcome {
//!     succeeded: true,
//!     revision: 7,
//! };
//! assert_eq!(rt; read_outcome(alloc, body)?, outcome);
//! ```
#![tactic(auto)]

mod asking;
mod calls;
mod fault;
mod reading;

pub use asking::{range_text, txn_text};
pub use calls::{Compare, Found, Outcome, Pair, Put, Range, Refusal, Txn};
pub use fault::{AnswerFault, Field};
pub use reading::{read_found, read_outcome, read_refusal};
