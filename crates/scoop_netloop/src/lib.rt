//! A node's loop: it answers the datagrams that come over a link, and runs handlers in other threads.
//!
//! [`answer_datagram`] maps bytes to bytes: it gives a datagram to a book and writes the datagram that answers it.
//! [`answer_message`] does so for a message that was read already.
//! [`serve`] does the same over a link at a node that threads share. It passes each handler that may have
//! something to run to an executor, which works outside the node's lock. [`LoopLink`] is a node without a network,
//! for tests.
//!
//! ```
//! // client 7 greets handler 1 of the book, and the handler's reply is a frame too
//! let hello = b"SQ\x01\x01\0\0\0\x01\0\0\0\x07\0\0\0\x01\0\0\0\0\0\0\0\0\0\0";
//! let mut reply = [0; BUFFER_LEN];
//! let answered = answer_datagram(book, 0, hello, &mut reply)?;
//! assert_eq!(rt; answered, Answered::Reply(26, Note::Greeted));
//! // what is no frame is told as such, and nothing has happened
//! let cut = answer_datagram(book, 0, &hello[..25], &mut reply)?;
//! assert_eq!(rt; cut, Answered::RefusedFrame(FrameError::Short));
//! // a client's driver reaches the same book without a network
//! let link = LoopLink::new(alloc, book, 0);
//! let mut driver = Driver::new(client(&rt, alloc, SEVEN, ONE), link, 10);
//! // its first turn greets the handler, and then it reserves
//! assert_eq!(rt; driver.turn()?, Some(ClientNote::Welcomed(ONE)));
//! driver.reserve(&[ONE])?;
//! ```
#![tactic(auto)]

mod answer;
mod executor;
mod loop_link;
mod node_loop;
mod receiver;
mod running_out;
mod stop;

pub use answer::{Answered, answer_datagram, answer_message, runs_after};
pub use executor::{Gate, OpenGate};
pub use loop_link::LoopLink;
pub use node_loop::serve;
pub use running_out::run_out;
pub use scoop_driver::{
    Command, Condition, Diary, Driver, DriverError, HandlerList, NoDiary, Received, Step, StepList,
    steps_are_moves,
};
pub use stop::{ServeEnd, Stop};
