//! Admitted clients: links of a node that pass on only the frames of the clients that it knows, and not too many of each.
//!
//! [`AdmittingLink`] decodes each datagram that it receives. It drops and counts the frames of other clients, and
//! reports each of them to its [`Strangers`]. Bytes that are no frame pass on. A handler has 64 marks. Without this
//! link, invented clients could take all of them permanently.
//!
//! A [`BudgetLink`] under it passes on a bounded number of datagrams of each client in a period. So a client that floods the
//! node leaves it time for the others.
//!
//! ```
//! let mut tape = TapeLink::new(alloc, 0)?;
//! for client in [99, 7] {
//!     tape.feed(hello(client)?.as_slice())?;
//! }
//! let mut link = AdmittingLink::new(tape, vec![in alloc; ClientId(7)]?, NoReport);
//! let mut buffer = [0; BUFFER_LEN];
//! assert_eq!(rt; link.receive(&mut buffer), Ok(Some(26)));
//! assert_eq!(rt; buffer[11], 7);
//! assert_eq!(rt; link.refused(), 1);
//! ```
#![tactic(auto)]

mod admitting_link;
mod budget;
mod budget_link;
mod taken;

pub use admitting_link::{AdmittingLink, NoReport, Strangers};
pub use budget_link::BudgetLink;
