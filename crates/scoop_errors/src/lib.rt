//! The errors with which a node or a client that runs ends early, and their texts.
//!
//! Nodes, clients and the demo share [`PartyError`]. [`client_name`] and [`client_number`] say what a client's refusal
//! prints.
#![tactic(auto)]

mod names;
mod party_error;

pub use names::{client_name, client_number};
pub use party_error::PartyError;
