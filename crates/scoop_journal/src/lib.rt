//! Journals: the lines that a node or a client appends to a file, as it does what they tell.
//!
//! [`read`] reads one line, and [`write`] writes one. A line ends in a newline, which `read` isn't given and `write` writes.
//!
//! ```
//! let mut text = Vec::new(alloc);
//! write(&Line::Begin(HandlerId(1)), &mut text)?;
//! assert!(rt; text == b"begin 1\n");
//! let line = read(b"begin 1").ok().ok_or("no line")?;
//! assert!(rt; matches!(line, Line::Begin(HandlerId(1))));
//! // a fault says what is wrong with the line
//! assert_eq!(rt; read(b"begin one").err(), Some(LineFault::NotANumber));
//! ```
#![tactic(auto)]

mod commands;
mod fault;
mod file;
mod journal;
mod line;
mod reading;
mod words;
mod writing;

pub use fault::LineFault;
pub use file::{JournalFile, OpenError, Owner};
pub use journal::{AppendError, Journal};
pub use line::{Arrival, Line};
pub use reading::read;
pub use writing::write;
