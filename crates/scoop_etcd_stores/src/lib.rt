//! Stores in an etcd, for the commands: made, taken over, and looked into.
//!
//! - [`connect`] makes the etcd of an `EtcdPlace`, which has the members and the name that a text says. It sends
//!   nothing.
//! - [`create`] makes a party's store, [`create_after`] a client's that begins above an incarnation, and [`adopt`] takes a
//!   store over.
//! - A [`FatefulKeeper`] is the keeper over such a store. It notes why it refuses in a [`Fate`], which outlives it. Before replies
//!   to messages that change no state, it asks whether it still owns the record.
//! - [`read_text`] and [`put_text`] are for the text beside a store, under the key `NAME/system/node/N` or
//!   `NAME/system/client/C`. It stays as the store's owner first puts it.
//! - [`handlers_in`], [`clients_in`] and [`owners_in`] list what stands under a name. They and [`state_under`] change nothing.
//! - An [`EtcdFault`] says what is wrong and what to do, and [`report_etcd`] prints it.
//!
//! ```
//! let place = EtcdPlace::read("etcd://127.0.0.1:2379/bank")?;
//! let fate = Fate::new();
//! let store = adopt(rt, &place, Owner::Node(1))?;
//! let keeper = FatefulKeeper::new(store, &fate);
//! ```
#![tactic(auto)]

mod error;
mod fate;
mod fateful_keeper;
mod listing;
mod report;
mod store;
mod text;

pub use error::EtcdFault;
pub use fate::Fate;
pub use fateful_keeper::FatefulKeeper;
pub use listing::{clients_in, handlers_in, has_state, owners_in, state_under};
pub use report::report_etcd;
pub use store::{SharedEtcd, SharedStore, adopt, connect, create, create_after};
pub use text::{put_text, read_text};
