//! Nodes and clients whose lives are replayed by the rules of handlers and clients.
//!
//! A [`NodeReplay`] makes a node's entries one after another, as its caller tells them. It refuses a reply that the
//! handler's rules don't give.
#![tactic(auto)]

mod client;
mod error;
mod handlers;
mod local;
mod node;

pub use client::ClientReplay;
pub use error::ReplayError;
pub use node::{NodeReplay, Placed};
