//! Remembered replies: a node's link that answers repeated datagrams while their handlers stay as they are.
//!
//! [`RecallingLink`] remembers replies with the datagrams that they answer. The same datagram may come again while no state was
//! stored for its handler. Then the link sends the same reply again, and the node doesn't see the datagram. So a client that
//! waits fills no history. [`Changes`] count the states that are stored, as a [`CountingKeeper`] stores them.
//!
//! ```
//! let changes = Changes::new(alloc)?;
//! let mut tape = TapeLink::new(alloc, 3)?;
//! for _ in 0..3 {
//!     tape.feed(&LOCK)?;
//! }
//! let mut link = RecallingLink::new(alloc, tape, &changes)?;
//! let mut buffer = [0; BUFFER_LEN];
//! // the node hears the first one, and replies
//! assert_eq!(rt; link.receive(&mut buffer), Ok(Some(26)));
//! assert!(rt; link.send(CLIENT, &BUSY).is_ok());
//! // the link answers the others by itself
//! assert_eq!(rt; link.receive(&mut buffer), Ok(None));
//! assert_eq!(rt; link.inner().sent(2), Some((CLIENT, BUSY)));
//! ```
#![tactic(auto)]

mod changes;
mod counting_keeper;
mod memory;
mod recalling_link;

pub use changes::Changes;
pub use counting_keeper::CountingKeeper;
pub use memory::Memory;
pub use recalling_link::RecallingLink;
