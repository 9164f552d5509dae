//! The queue of queues of a handler. Each block that has reserved the handler has a private queue with the entries
//! that it has logged and that have not run.
//!
//! The handler works on the first private queue. It waits if that one is empty and has not ended. In the example
//! `block` gives the block of a number.
//!
//! ```
//! let mut queues = QueueOfQueues::new(rt.alloc());
//! queues.open(block(1))?;
//! queues.open(block(2))?;
//! // the first private queue is empty: its handler waits
//! assert_eq!(rt; queues.front(), None);
//! queues.put(block(1), Entry::End)?;
//! assert_eq!(rt; queues.front(), Some((block(1), 1, Entry::End)));
//! // a private queue goes with its End, and then the other one is the first
//! assert_eq!(rt; queues.advance(), Some((block(1), 1, Entry::End)));
//! assert_eq!(rt; queues.list_len(), 1);
//! assert_eq!(rt; queues.open(block(2)), Err(OpenQueueError::AlreadyThere));
//! // a queue that is cut, as when its client restarts, goes once it is empty
//! assert!(rt; queues.cut(block(2)));
//! assert_eq!(rt; queues.list_len(), 0);
//! ```
#![tactic(auto)]

mod copying;
mod ending;
mod error;
mod key;
mod pending;
mod queues;
mod state;
mod table;

pub use error::{AppendError, OpenQueueError, PutError};
pub use queues::QueueOfQueues;
pub use state::{Head, QueueState};
