//! Watchers of a node that runs. They copy onto a board, and count, what passes through its keeper, its link and its
//! output.
//!
//! A [`Watch`] is shared by the node's threads and the one that shows it. A [`WatchedKeeper`] stands over the node's keeper: it
//! passes every call on, copies each stored state onto the board, and counts what was heard and run. A [`WatchedLink`] counts
//! datagrams, [`WatchedStrangers`] count frames of unknown clients, and a [`WatchedOutput`] the openings of the node. None of
//! them changes what it passes on, and no reader of a watch can change the node.
//!
//! ```
//! let watch = Watch::new(alloc, settings);
//! let mut keeper = WatchedKeeper::new(MemoryKeeper::new(alloc), rt, &watch);
//! keeper.put_handler(state)?;
//! // what is shown of the handler is the state of that put
//! let shown = watch.state(rt, HandlerId(1))?.ok_or("no state")?;
//! assert!(rt; shown.same(state));
//! assert_eq!(rt; watch.tally(rt).puts, 1);
//! ```
#![tactic(auto)]

mod board;
mod event;
mod event_list;
mod link_counts;
mod tally;
mod watch;
mod watched_keeper;
mod watched_link;
mod watched_output;
mod watched_strangers;

pub use event::{Event, Level, LogLevel};
pub use event_list::{EventList, MAX_EVENTS};
pub use link_counts::LinkTally;
pub use tally::{NOTES, REASONS, Tally};
pub use watch::{Settings, Watch};
pub use watched_keeper::WatchedKeeper;
pub use watched_link::WatchedLink;
pub use watched_output::WatchedOutput;
pub use watched_strangers::WatchedStrangers;
