//! All parties together: a world of handlers and clients that runs lists of events, over a record in memory.
//!
//! An event moves one party. Any message may come at any later moment, any number of times, in any order, or
//! never. Clients and nodes may restart at any moment. Whatever the events are, the world stays safe, and they are
//! a run of the written rules: that is the theorem, on `World::run`.
//!
//! ```
//! // a world of handler 1, which is placed on a node with its object, and of client 7
//! let keeper = MemoryKeeper::new(alloc);
//! let mut world = World::open(alloc, placements, &[(ClientId(7), 1)], keeper)?;
//! // the client greets the handler, which hears that, and the client hears the reply
//! let greeting = [
//!     Event::Tick(ClientId(7), HandlerId(1)),
//!     Event::Take(1),
//!     Event::Take(2),
//! ];
//! assert_eq!(rt; world.run(&greeting), Ok(3));
//! let welcome = Message::Welcome(HandlerId(1), ClientId(7), 1);
//! assert_eq!(rt; world.sent(2).copied(), Some(welcome));
//! ```
#![tactic(auto)]

mod error;
mod event_list;
mod logs;
mod opening;
mod parts;
mod party;
mod placing;
mod site;
mod standing;
mod world;

pub use error::WorldOpenError;
pub use placing::Placement;
pub use scoop_model::{
    Command, Event, HandlerList, MAX_NAMED_HANDLERS, TooManyHandlers, WorldError, WorldNote,
    same_event, same_note,
};
pub use standing::Standing;
pub use world::World;
