//! A world is never stuck: events lead from every reached world to a calm one.
//!
//! In a *calm*, that is, quiescent world every client is idle, and each handler has a free lock, no private queue and no
//! job out. Read [`never_stuck`] first, with its words in `specs/Settling.antt`. The next event is a function of the
//! world (`specs/Next.antt`), and [`Next`] names the choices. [`next_of`] computes it for a running world.
//! [`rounds_calm`] says how long every fair way takes, in rounds (`specs/Rounds.antt`, `specs/Bound.antt`), and
//! [`left_of`] computes that number. The other functions have nothing to run: they are theorems, which a proof gets by a
//! call.
//!
//! ```
//! // some events without a restart lead from every reached world to a calm one
//! scoop_calm::never_stuck();
//! // they are the next events, taken again and again
//! scoop_calm::settles_by_next_events();
//! // each of them leaves less to do
//! scoop_calm::next_leaves_less();
//! // nothing is next exactly if the world is calm
//! scoop_calm::calm_has_no_next();
//! // every fair way leads to a calm world too, in as many rounds as there is left to do
//! scoop_calm::rounds_calm();
//! // what is left is counted along a block, and two clients keep a third one from a lock
//! scoop_calm::examples::counted();
//! scoop_calm::examples::taken_in_turns();
//! // the calm world was reached, so it is safe as every such world is
//! scoop_model::theorems::reached_safe();
//! ```
//!
//! ```
//! // a client that joins is to greet the handler (`next` and `left` are `next_of` and `left_of` where memory isn't refused)
//! let asks = Next::Ask(ClientId(7), HandlerId(1));
//! assert_eq!(rt; next(world), Ok(Some(asks)));
//! assert_eq!(rt; left(world), Ok(4));
//! // it does, and hears the reply: then the world is calm
//! assert_eq!(rt; world.run(&GREETING), Ok(3));
//! assert_eq!(rt; next(world), Ok(None));
//! assert_eq!(rt; left(world), Ok(0));
//! // a client that is to reserve the handler asks it for the lock
//! let one = HandlerList::of(&[HandlerId(1)])?;
//! let reserve = Event::Do(ClientId(7), Command::Reserve(one));
//! assert_eq!(rt; world.step(reserve), Ok(WorldNote::Done));
//! assert_eq!(rt; next(world), Ok(Some(asks)));
//! assert_eq!(rt; left(world), Ok(11));
//! ```
#![tactic(auto)]

mod asking;
mod choosing;
mod counting;
pub mod examples;
mod mark_places;
mod next;
mod rounds;
mod settling;
mod work;

pub use choosing::next_of;
pub use counting::left_of;
pub use next::Next;
pub use rounds::rounds_calm;
pub use settling::{calm_has_no_next, never_stuck, next_leaves_less, settles_by_next_events};
