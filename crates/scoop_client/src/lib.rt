//! A client. It greets its handlers, and then runs blocks, one at a time. A block reserves several handlers, logs
//! calls and queries at them, and ends.
//!
//! [`Client::due`] gives the message that is due to a handler; it stays due until its reply has come.
//! [`Client::hear`] takes the handlers' replies.
//!
//! ```
//! let mut client = Client::begin(alloc, SEVEN, 1, &[ONE])?;
//! assert_eq!(rt; client.due(ONE), Some(Message::Hello(ONE, SEVEN, 1)));
//! client.hear(&Message::Welcome(ONE, SEVEN, 1));
//! client.reserve(&[ONE])?;
//! assert_eq!(rt; client.due(ONE), Some(Message::Lock(ONE, BLOCK)));
//! client.hear(&Message::Locked(ONE, BLOCK));
//! client.hear(&Message::Opened(ONE, BLOCK));
//! client.hear(&Message::Unlocked(ONE, BLOCK));
//! let args = Args::of(&[5])?;
//! client.query(ONE, Request { op: 2, args })?;
//! // a Log with the query, until its answer has come
//! assert!(rt; client.due(ONE).is_some());
//! let heard = client.hear(&Message::Answer(ONE, BLOCK, 1, Answer::Value(6)));
//! assert_eq!(rt; heard, ClientNote::Accepted(ONE, 1, Answer::Value(6)));
//! ```
#![tactic(auto)]

mod client;
mod command;
mod commands;
mod error;
mod handlers;
mod hearing;
mod phase;
pub mod theorems;
mod window;
mod windows;

pub use client::Client;
pub use command::Command;
pub use error::{BeginError, ClientError};
pub use handlers::{HandlerList, MAX_NAMED_HANDLERS, TooManyHandlers};
pub use phase::{ClientNote, Phase};
pub use window::Window;
