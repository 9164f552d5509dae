//! The messages of the SCOOP protocol and their parts: names, requests and entries, with the limits of each.
//!
//! Everything here is plain data of fixed size, so nothing takes memory. Contracts see `Words`, `Args` and
//! `Entries` as lists, and everything else as it is written.
//!
//! ```
//! let block = Block {
//!     client: ClientId(7),
//!     inc: 2,
//!     num: 3,
//! };
//! // a query, and the End of the block's entries, as its first two entries at handler 1
//! let args = Args::of(&[5])?;
//! let get = Entry::Query(Request { op: 2, args });
//! let log = Message::Log(HandlerId(1), block, 1, Entries::of(&[get, Entry::End])?);
//! assert!(rt; log.for_handler() && log.fits());
//! assert_eq!(rt; (log.client(), log.inc()), (ClientId(7), 2));
//! // the limits are kept: a request has four arguments at most, and an End stands only last
//! assert_eq!(rt; Args::of(&[0; 5]), Err(TooManyArgs));
//! assert_eq!(rt; Entries::of(&[Entry::End, get]), Err(BadEntries));
//! ```
#![tactic(auto)]

mod args;
mod entries;
mod law;
pub mod limits;
mod memory;
mod message;
mod name;
mod request;
mod words;

pub use args::{Args, TooManyArgs};
pub use entries::{BadEntries, Entries, ends};
pub use law::{same_message, same_words};
pub use memory::OutOfMemory;
pub use message::Message;
pub use name::{Block, ClientId, HandlerId};
pub use request::{Answer, Entry, Request};
pub use words::{WordCount, Words};
