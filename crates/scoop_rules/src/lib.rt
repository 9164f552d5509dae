//! The written rules of SCOOP, and the theorem that every run of a world is a run of these rules. The rules know no
//! messages, and a joint reservation is one step.
//!
//! A *configuration* has, at each handler, a queue of private queues and the entries that have run. A *move* is one of
//! these: it reserves a block at all of its handlers in one step, logs one entry, runs the first entry of the first
//! queue, restarts a client, or cuts a queue. Each world stands for a configuration. Each event stands for a list of
//! moves, which is mostly empty.
//!
//! The crate has nothing to run. Its functions are theorems: a proof that calls one can use it.
//!
//! ```
//! // nothing was reserved and nothing has run where a world opens
//! scoop_rules::theorems::opens_empty();
//! // whatever happens next in a world that is reached is a list of moves, each of which the rules allow
//! scoop_rules::theorems::follows_rules();
//! // so any list of events from a world that opens is a run of the rules
//! scoop_rules::theorems::runs_by_rules();
//! // and its moves, played one after another, make what the last world stands for
//! scoop_rules::theorems::replays();
//! // three clients in a circle of locks: their events, and the moves of these events, are computed
//! scoop_rules::examples::three_clients();
//! // a client restarts with two calls received that have not run
//! scoop_rules::examples::runs_what_came();
//! ```
#![tactic(auto)]

pub mod examples;
pub mod theorems;
