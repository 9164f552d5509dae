//! Retransmission by measured round trips, as RFC 6298 measures them.
//!
//! A [`MeasuredLink`] passes sends on to an inner link, and holds a repeated datagram back until its time has come. A datagram
//! without a reply goes again after the party's timeout, which doubles each time. One that was answered and is still due goes
//! again at once, and later at most once a round trip. [`Estimate`] has the round trips of one party. The clock is a
//! [`Times`]: [`SystemTimes`] is the system's, and a test brings its own. [`SlowNotes`] pass at most one line a second.
//!
//! ```
//! // the round trips of a party take 100 ms: its timeout is 300 ms at first, and falls as the trips stay the same
//! let mut estimate = Estimate::first(100_000);
//! assert_eq!(rt; estimate.timeout(), 300_000);
//! for _ in 0..20 {
//!     estimate = estimate.next(100_000);
//! }
//! assert_eq!(rt; estimate.timeout(), 101_000);
//! ```
#![tactic(auto)]

mod ask;
mod estimate;
mod examples;
mod measured_link;
mod pacing;
mod slow_notes;
mod times;

pub use ask::Ask;
pub use estimate::Estimate;
pub use examples::computed_examples;
pub use measured_link::MeasuredLink;
pub use slow_notes::SlowNotes;
pub use times::{SystemTimes, Times};
