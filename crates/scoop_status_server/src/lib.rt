//! The thread that shows a node: its status over HTTP, and its log.
//!
//! [`show`] runs in a thread of its own beside the node. It reads the node's [`Watch`] alone, answers the requests that come to
//! its [`Server`], and writes the lines of its [`Log`].
//!
//! ```
//! let mut server = Server::new(alloc, keys, listener)?;
//! let mut pages = Pages { rt, alloc, watch, about };
//! server.turn(rt, &mut pages);
//! ```
//!
//! [`Watch`]: scoop_watch::Watch
//! [`Log`]: scoop_status::Log
#![tactic(auto)]

mod json;
mod pages;
mod peer;
mod server;
mod showing;

pub use json::print_json;
pub use pages::{Page, Pages, page_of};
pub use server::Server;
pub use showing::show;
