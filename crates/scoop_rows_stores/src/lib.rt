//! Rows about what outlives a restart: images of states, keepers, stores in a database or a file, journals, and audits.
//!
//! Each module says what its commands are.
#![tactic(auto)]

mod areas;
mod audits;
mod bytes;
mod cells;
mod disk;
mod folder;
mod journals;
mod keepers;
mod keeping;
mod paper;
mod stops;
mod stores;

pub use areas::StoreAreas;
