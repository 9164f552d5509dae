//! The clocks that links use.

ghost use Rattle.std.specs.Prelude.{◌≡◌, ℕ};

use std::time::{Clock, Instant};

/// A clock of microseconds. Contracts see the time that it returned last.
pub trait Times: Drop {
    /// The time that it returned last.
    ghost time: { Self → ℕ };

    /// The time, in microseconds since some moment.
    fn now(&mut self) -> u64
        ensures { result ≡ time self.new };
}

/// The system's clock, from the moment that it was made. If the system refuses the time, it repeats its last one.
#[derive(Drop)]
pub struct SystemTimes<'r, R: Clock> {
    rt: &'r R,
    start: Option<Instant>,
    last: u64,
}

impl<'r, R: Clock> SystemTimes<'r, R> {
    /// A clock that begins now.
    pub fn new(rt: &'r R) -> SystemTimes<'r, R> {
        SystemTimes {
            rt,
            start: Instant::now(rt).ok(),
            last: 0,
        }
    }

    // The time, if the system reports it.
    fn elapsed(&self) -> Option<u64> {
        let passed = self.start?.elapsed(self.rt).ok()?;
        u64::try_from(passed.as_micros()).ok()
    }
}

impl<R: Clock> Times for SystemTimes<'_, R> {
    ghost time = { λ s. s.last };

    fn now(&mut self) -> u64 {
        if let Some(now) = self.elapsed() {
            self.last = now;
        }
        self.last
    }
}
