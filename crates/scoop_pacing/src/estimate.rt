//! The round trips of one party.

ghost use Rattle.std.specs.Prelude.{◌≡◌, ◌≤◌};
ghost use Rattle.scoop_pacing.specs.Estimate.{first_estimate, next_estimate, timeout};

// The shortest timeout, in microseconds.
const MIN_TIMEOUT: u32 = 5_000;

/// The longest timeout, in microseconds.
pub const MAX_TIMEOUT: u32 = 2_000_000;

// The least margin of a timeout above the smoothed round trip, in microseconds. RFC 6298 calls it G, the clock
// granularity. The clock is finer. But a receive ends late by some milliseconds, so no repeat is as early as its timeout.
const MIN_MARGIN: u32 = 1_000;

/// The smoothed round trip of a party and its variation, in microseconds, by RFC 6298.
#[derive(Clone, Copy, Debug, PartialEq, Eq)]
pub struct Estimate {
    pub smooth: u32,
    pub variation: u32,
}

impl Estimate {
    /// The estimate after the first round trip.
    pub fn first(trip: u32) -> Estimate
        ensures { result ≡ first_estimate trip }
    {
        Estimate {
            smooth: trip,
            variation: trip / 2,
        }
    }

    /// The estimate after one more round trip.
    pub fn next(self, trip: u32) -> Estimate
        ensures { result ≡ next_estimate self trip }
    {
        let apart = u64::from(self.smooth.abs_diff(trip));
        let variation = (3 * u64::from(self.variation) + apart) / 4;
        let smooth = (7 * u64::from(self.smooth) + u64::from(trip)) / 8;
        Estimate {
            smooth: smooth as u32,
            variation: variation as u32,
        }
    }

    /// How long a reply may take, in microseconds: from 5 ms to 2 s.
    pub fn timeout(self) -> u32
        ensures value { result ≡ timeout self }
        ensures limit { result ≤ 2_000_000 }
    {
        let margin = (4 * u64::from(self.variation)).max(u64::from(MIN_MARGIN));
        let timeout = u64::from(self.smooth) + margin;
        timeout
            .max(u64::from(MIN_TIMEOUT))
            .min(u64::from(MAX_TIMEOUT)) as u32
    }
}
