//! A block's reservation of its handlers. It locks them one by one in ascending number, then opens a private queue
//! at each, then unlocks each. Until all are locked it can be given up.
//!
//! `Reservation` gives the message that is due to each handler, and hears the handlers' replies. It has a fixed
//! size, so nothing here takes memory.
//!
//! ```
//! let mut reservation = Reservation::start(BLOCK, &[TWO, ONE], &[ONE, TWO])?;
//! assert_eq!(rt; reservation.due(ONE), Some(Message::Lock(ONE, BLOCK)));
//! assert_eq!(rt; reservation.due(TWO), None);
//! reservation.hear(&Message::Locked(ONE, BLOCK));
//! assert_eq!(rt; reservation.due(TWO), Some(Message::Lock(TWO, BLOCK)));
//! reservation.hear(&Message::Locked(TWO, BLOCK));
//! assert_eq!(rt; reservation.due(ONE), Some(Message::Open(ONE, BLOCK)));
//! reservation.hear(&Message::Opened(ONE, BLOCK));
//! reservation.hear(&Message::Opened(TWO, BLOCK));
//! assert!(rt; reservation.is_open());
//! assert_eq!(rt; reservation.due(TWO), Some(Message::Unlock(TWO, BLOCK)));
//! ```
#![tactic(auto)]

mod error;
mod handlers;
mod reservation;
mod set;
mod stage;
pub mod theorems;

pub use error::{ReserveError, TooLate};
pub use handlers::{first_repeated, has};
pub use reservation::Reservation;
pub use stage::{Stage, Step};
