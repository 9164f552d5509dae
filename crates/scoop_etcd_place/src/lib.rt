//! The texts that name stores in an etcd, as `etcd://10.0.0.1:2379,10.0.0.2:2379/bank`: its members, and a name.
//!
//! ```
//! let place = EtcdPlace::read("etcd://127.0.0.1:2379/bank")?;
//! assert_eq!(rt; place.name, "bank");
//! assert!(rt; EtcdPlace::read("etcd://127.0.0.1:2379") == Err(PlaceFault::NoName));
//! assert!(rt; !begins_as_etcd("/tmp/node-1.db"));
//! ```
#![tactic(auto)]

mod place;

pub use place::{EtcdPlace, PlaceFault, begins_as_etcd};
