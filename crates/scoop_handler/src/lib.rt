//! One handler of the SCOOP protocol: the clients that it has greeted, the holder of its lock, its private queues,
//! the runs of their entries on its object, and its replies.
//!
//! [`Handler::hear`] takes a message and returns the reply. [`Handler::run`] runs the first entry of the first
//! private queue. To run it elsewhere, [`Handler::begin`] returns it as a job and [`Handler::finish`] takes it
//! back.
//!
//! ```
//! // the object has one word, which is 0, and the operation ADD of its class adds to it
//! let mut handler = Handler::new(alloc, HERE, class, object)
//!     .ok()
//!     .ok_or("another class")?;
//! let greeted = handler.hear(&Message::Hello(HERE, ClientId(7), 1))?;
//! assert_eq!(rt; greeted.reply, Some(Message::Welcome(HERE, ClientId(7), 1)));
//! handler.hear(&Message::Lock(HERE, block))?;
//! handler.hear(&Message::Open(HERE, block))?;
//! handler.hear(&Message::Unlock(HERE, block))?;
//! let args = Args::of(&[5])?;
//! let query = Entries::of(&[Entry::Query(Request { op: ADD, args })])?;
//! let logged = handler.hear(&Message::Log(HERE, block, 1, query))?;
//! assert_eq!(rt; logged.note, Note::Took(1));
//! let ran = handler.run().ok_or("nothing to run")?;
//! assert_eq!(rt; ran.answer, Some(Answer::Value(5)));
//! ```
#![tactic(auto)]

mod copying;
mod error;
mod handler;
mod job;
mod mark;
mod marks;
mod note;
mod outcome;
mod ran;
mod setting;
mod state;
pub mod theorems;

pub use error::{AfterError, StrangerJob, WrongClass};
pub use handler::Handler;
pub use job::{Done, Job};
pub use mark::{Mark, Stage};
pub use note::{Heard, Note, Reason};
pub use ran::Ran;
pub use state::{HandlerState, StateError};
