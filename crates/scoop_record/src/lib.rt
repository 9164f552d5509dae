//! A keeper in the tables of a database: it stores the states of handlers and the incarnations of clients.
//!
//! A [`Store`] is a [`Keeper`], as the one in memory is. For a handler it writes the bytes of [`image`] and
//! [`pending_row`]. In the example `conn` is a connection, and `is_loaded` returns whether it was this state that came.
//!
//! ```
//! // a store makes its tables beside those of the database
//! let mut store = Store::create(alloc, conn)?;
//! assert!(rt; store.put_handler(state).is_ok());
//! assert_eq!(rt; store.next_incarnation(ClientId(7)), Ok(1));
//! // a restart: all that stays is the database, and a store takes the tables that are there
//! let conn = store.into_connection();
//! let mut store = Store::adopt(alloc, conn)?;
//! let loaded = store.load_handler(HandlerId(1));
//! assert!(rt; is_loaded(loaded, state));
//! assert_eq!(rt; store.next_incarnation(ClientId(7)), Ok(2));
//! ```
#![tactic(auto)]

mod adopt;
mod clients;
mod create;
mod gathering;
mod handlers;
mod images;
mod migrate;
mod refusal;
mod schema;
mod sound;
mod store;
mod version;

pub use adopt::adopt_tables;
pub use create::create_tables;
pub use gathering::{GatheringStore, gather, place_of};
pub use handlers::images_of;
pub use images::{ReadError, image, pending_row, read_image, read_image_with_entries};
pub use scoop_keeper::{
    FailingKeeper, JobRefusal, Keeper, KeeperError, MemoryKeeper, Unfinished, finish_and_store,
    finish_beside, hear_and_store, hear_beside,
};
pub use sound::memory_is_sound;
pub use store::Store;
