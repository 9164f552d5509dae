//! The commands of a system in a file, `check`, `node`, `client`, `up` and `audit`, of a key, `key`, and of a store, `store`.
//!
//! A program of one's own runs as a node with its own objects ([`serve_own_node`]) or as a client ([`run_own_client`]).
//!
//! Each reports on standard error why it ends early, and returns the status with which the program ends.
#![tactic(auto)]

mod asking;
mod auditing;
mod checking;
mod copying;
mod ending;
mod folder;
mod going_on;
mod hearing;
mod host;
mod joining;
mod journaling;
mod keyboard;
mod keys;
mod owning;
mod places;
mod serving;
mod store_words;
mod stores;
mod system_file;
mod tasks;
mod typed_lines;
mod up;
mod watching;

pub use asking::{run_client, run_own_client};
pub use auditing::explain;
pub use checking::check;
pub use keys::make_key;
pub use serving::{serve_node, serve_own_node};
pub use store_words::store;
pub use up::run_up;
