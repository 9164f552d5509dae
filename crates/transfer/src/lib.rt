//! An example: a joint block over two accounts, in a world whose links lose and repeat messages.
//!
//! One client reserves both accounts, withdraws from one, deposits in the other and asks for the new balance. On the
//! way a message is lost and another comes twice. The chart of the run is drawn as it goes.
//!
//! ```
//! // one account holds 100, the other nothing, and the client has greeted both
//! let mut transfer = Transfer::open(alloc, 100, 0)?;
//! // the paid amount is the second account's new balance, which the query returns
//! assert_eq!(rt; transfer.pay(30), Ok(Some(Answer::Value(30))));
//! assert_eq!(rt; transfer.pay(20), Ok(Some(Answer::Value(50))));
//! // the chart of all events, from the first greeting on
//! let mut picture = Vec::new(alloc);
//! assert!(rt; transfer.draw(&mut picture).is_ok());
//! assert!(rt; picture.starts_with(b"<svg "));
//! assert!(rt; has_line(&picture, b"<text x=\"16\" y=\"76\">tick</text>"));
//! ```
#![tactic(auto)]

mod account;
mod error;
mod transfer;

pub use error::TransferError;
pub use transfer::Transfer;
