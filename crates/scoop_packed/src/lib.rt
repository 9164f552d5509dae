//! Messages, notes and entries that have run, packed as words of 32 bits.
//!
//! A packed value takes only the words that its kind needs: a Lock takes 5, and a Log of one call with one argument
//! takes 12. A reader of the words gets the same values back.
//!
//! ```
//! let block = Block {
//!     client: ClientId(7),
//!     inc: 2,
//!     num: 3,
//! };
//! let lock = Message::Lock(HandlerId(1), block);
//! let mut words = Vec::new(rt.alloc());
//! words.reserve(51)?;
//! put_message(&mut words, &lock);
//! assert_eq!(rt; words.len(), 5);
//! let mut reader = Reader::new(&words);
//! let kind = reader.word();
//! assert_eq!(rt; reader.message(kind), lock);
//! ```
#![tactic(auto)]

mod reading;
mod skipping;
mod writing;

pub use reading::Reader;
pub use writing::{put, put_message, put_note, put_ran};
