//! A model of a whole world: the handlers of every node, the clients, and every message ever sent. An event makes
//! one world into the next. The main theorem says that every world which a list of events leads to is safe.
//!
//! An event moves one party. Any message may come at any later moment, any number of times, in any order,
//! or never. Clients and nodes may restart at any moment.
//!
//! This crate has the types of events and notes, and the theorems. `scoop_world` has the world that runs events.
//!
//! ```
//! // client 7 reserves two handlers, and sends the first one the message that is due to it
//! let both = HandlerList::of(&[HandlerId(1), HandlerId(2)])?;
//! let reserve = Event::Do(ClientId(7), Command::Reserve(both));
//! let tick = Event::Tick(ClientId(7), HandlerId(1));
//! assert!(rt; same_event(&reserve, &reserve));
//! assert!(rt; !same_event(&reserve, &tick));
//! // a command names nine handlers at most
//! assert_eq!(rt; HandlerList::of(&[HandlerId(1); 10]), Err(TooManyHandlers));
//! // a proof that calls a theorem can use it: every world that is reached is safe
//! scoop_model::theorems::reached_safe();
//! // and over a whole list of events a block that opens was the holder from its grant on
//! scoop_model::theorems::held_until_opened();
//! ```
#![tactic(auto)]

mod error;
mod event;
pub mod examples;
mod law;
mod note;
pub mod theorems;

pub use error::WorldError;
pub use event::Event;
pub use law::{same_event, same_note};
pub use note::WorldNote;
pub use scoop_client::{Command, HandlerList, MAX_NAMED_HANDLERS, TooManyHandlers};
