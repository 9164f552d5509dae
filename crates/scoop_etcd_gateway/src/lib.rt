//! An etcd of several members, reached over its HTTP gateway.
//!
//! A [`Gateway`] is an `Etcd`. It keeps a connection to one member, and tries the others when a try fails. A call takes at most
//! five seconds. The look-up of a host's name may add to them; an IP address needs none.
//!
//! A range is tried until it is answered. A transaction whose answer was lost is looked up before it is tried again: the first
//! put whose key must have a certain revision is its [`Guard`]. If the value of that put stands there at another revision, the
//! transaction was made. At most one of several tries takes effect, since each of them asks for the old revision. A transaction
//! with no guard is tried once.
//!
//! The behaviour of a server can't be proved. So the gateway has a [`World`], which gives the server's contents after
//! each sequence of calls with their answers. The gateway records its calls for contracts alone, and contracts speak of
//! a server whose answers fit its world. That a look-up is right about a lost answer is part of that premise. A program
//! that states nothing of the server's contents names [`Unknown`].
//!
//! [`Exchange`] is one request with its response, as bytes. Its contracts say which events `http1` reads of the bytes that came,
//! and that the body is made of their parts.
//!
//! ```
//! let mut names = Vec::new(alloc);
//! names.push(String::from_str(alloc, "127.0.0.1:2379")?)?;
//! let mut etcd = Gateway::new(rt, alloc, names, Unknown)?;
//! let from = Vec::from_slice(alloc, b"a")?;
//! let found = etcd.range(&Range { from, to: None })?;
//! ```
#![tactic(auto)]

mod call;
mod exchange;
mod fate;
mod gateway;
mod members;
mod reply;
mod settling;
mod timing;
mod world;

pub use call::{Answer, Call};
pub use exchange::{Exchange, HttpFault, MAX_BODY_LEN, Response};
pub use fate::{Fate, Guard, fate_of, guard_of};
pub use gateway::{Gateway, MAX_MEMBERS, MembersError};
pub use world::{Unknown, World};
