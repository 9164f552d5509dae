//! Time limits.

use std::time::{Clock, Duration, Instant};

/// The time after so many milliseconds. `None` if the clock can't be read.
pub(crate) fn after<R: Clock>(rt: &R, millis: u64) -> Option<Instant> {
    Instant::now(rt)
        .ok()?
        .checked_add(Duration::from_millis(millis))
}

/// How long it is until then. `None` if it has passed, or the clock can't be read.
pub(crate) fn left<R: Clock>(rt: &R, end: Instant) -> Option<Duration> {
    let now = Instant::now(rt).ok()?;
    let left = end.saturating_duration_since(now);
    if left.is_zero() { None } else { Some(left) }
}
