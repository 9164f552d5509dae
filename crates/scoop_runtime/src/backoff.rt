//! Pauses that double.

ghost use Rattle.std.specs.Prelude.{◌≡◌, ⊤};
ghost use Rattle.scoop_runtime.specs.Backoff.{longest_after};

use rand::RngExt;
use rand_pcg::Pcg32;
use scoop_driver::Pause;
use scoop_message::ClientId;
use std::thread;
use std::time::{Clock, Duration, Instant};

// In microseconds.
const FIRST: u32 = 1_000;

const LONGEST: u32 = 100_000;

const LONGEST_BY_TRY: u32 = 1_000_000;

// The pause stops doubling after this many failed tries more than one.
const DOUBLINGS: u32 = 7;

// A pause is up to this many times as long as the try before it.
const TIMES_THE_TRY: u32 = 8;

/// Pauses that double from 1 ms to 100 ms. They are longer after a try that took long, as at a node with a slow disk.
/// Such a pause is up to eight times as long as that try, and at most a second. So clients that wait leave the handlers
/// free most of the time. Up to half of each pause is left out at random, so that clients that wait for the same
/// handlers don't all try at once.
#[derive(Drop)]
pub struct Backoff<'r, R: Clock> {
    rt: &'r R,
    random: Pcg32,
    paused: Option<Instant>,
}

// The longest pause after this many failed tries, the last of which took this long. All in microseconds.
fn longest_after(failed: u32, tried: u32) -> u32
    ensures { result ≡ longest_after failed tried }
{
    let doublings = failed.saturating_sub(1).min(DOUBLINGS);
    let doubled = (FIRST << doublings).min(LONGEST);
    let by_try = tried.saturating_mul(TIMES_THE_TRY).min(LONGEST_BY_TRY);
    doubled.max(by_try)
}

// Microseconds, up to 2^32-1.
fn micros_of(duration: Duration) -> u32 {
    u32::try_from(duration.as_micros()).unwrap_or(u32::MAX)
}

impl<'r, R: Clock> Backoff<'r, R> {
    /// The pauses of this client. Clients with other numbers leave out other parts of their pauses.
    pub fn new(rt: &'r R, client: ClientId) -> Backoff<'r, R> {
        Backoff {
            rt,
            random: Pcg32::new(0, u64::from(client.0)),
            paused: None,
        }
    }

    // How many microseconds the last try took: 0 for the first one of a block, and if the clock fails.
    fn tried(&self, failed: u32) -> u32 {
        let Some(paused) = self.paused else {
            return 0;
        };
        if failed == 1 {
            return 0;
        }
        paused.elapsed(self.rt).map_or(0, micros_of)
    }
}

impl<'r, R: Clock> Pause for Backoff<'r, R> {
    ghost paused = { λ _ _ _. ⊤ };

    fn pause(&mut self, failed: u32) {
        let longest = longest_after(failed, self.tried(failed));
        let micros = self.random.random_range(longest / 2..=longest);
        thread::sleep(self.rt, Duration::from_micros(u64::from(micros)));
        self.paused = Instant::now(self.rt).ok();
    }
}
