//! A node's handlers over a keeper, with the history of their events, and the node that shares them between threads.
//!
//! Each message heard, each entry begun and each entry finished is one entry of the history. The history replays: each
//! reply and each new state is that of the handler's own rules. One thread uses a [`Book`]. Several threads share a
//! [`Node`], each with its own [`Pass`], which keeps that thread's events. A node closes only if its passes together
//! agree with its history.
//!
//! ```
//! // handler 1 of the book has a cell, and block 1 of client 7 makes its word 5
//! book.step(0, Event::Hear(Message::Hello(ONE, ClientId(7), 1)))?;
//! book.step(0, Event::Hear(Message::Lock(ONE, block)))?;
//! book.step(0, Event::Hear(Message::Open(ONE, block)))?;
//! let entries = Entries::of(&[Entry::Call(Request { op: SET, args })])?;
//! book.step(0, Event::Hear(Message::Log(ONE, block, 1, entries)))?;
//! // the entry runs outside the book
//! let job = book.begin(0, ONE)?.ok_or("nothing to run")?;
//! let ran = book.finish(0, job.work()).ok().ok_or("refused")?;
//! assert!(rt; (ran.block, ran.number) == (block(7), 1));
//! assert!(rt; book.history().len() == 6);
//! // the handler's last state is stored
//! let state = book.into_keeper().load_handler(ONE).ok()??;
//! state.words().get(0)
//! ```
#![tactic(auto)]

mod book;
mod closing;
mod error;
mod event;
mod handlers;
mod history;
mod law;
mod local;
mod node;
mod opening;
mod pass;
mod standing;

pub use book::Book;
pub use closing::Closed;
pub use error::{
    BookError, CloseError, CloseRefusal, FinishError, FinishRefusal, OpenError, ReopenError,
};
pub use event::{Event, Reply};
pub use history::{History, HistoryReader};
pub use law::{same_event, same_reply};
pub use node::Node;
pub use pass::Pass;
pub use standing::Standing;
