//! One order of the moves of nodes and clients, in which each message that is heard was sent before.
//!
//! A node's moves stand in its history, a client's in its driver's diary. `Party::of_node` and `Party::of_client` turn
//! each into a list of moves, with the message that each move heard and sent. [`weave`] takes these lists and returns
//! such an order. If there is none, it names the first move that no order explains. [`woven_is_a_world`] is the promise
//! of such an order.
//!
//! ```
//! // the node answers a greeting, and the client locks its handler once it is welcome
//! let node = party(alloc, &[answers(GREETS, IS_WELCOME)])?;
//! let client = party(alloc, &[sends(GREETS), hears(IS_WELCOME), sends(LOCKS)])?;
//! let parties = [node, client];
//! let order = weave(alloc, &parties)?;
//! // each move stands beside the place of its party
//! let expected = [
//!     (1, sends(GREETS)),
//!     (0, answers(GREETS, IS_WELCOME)),
//!     (1, hears(IS_WELCOME)),
//!     (1, sends(LOCKS)),
//! ];
//! is_order(&rt, &order, &expected);
//! ```
#![tactic(auto)]

mod driving;
mod error;
mod key;
mod law;
mod parties;
mod post;
mod sent;
mod traffic;
mod trail;
mod trails;
mod weaving;

pub use driving::{make_step, note_step};
pub use error::NoWeave;
pub use law::{one_more_driver, one_more_history, woven_is_a_world};
pub use post::Post;
pub use traffic::{Party, Traffic};
pub use trail::{Passage, Trail};
pub use trails::weave_trails;
pub use weaving::weave;
