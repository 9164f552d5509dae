//! The last datagram to a party.

ghost use Rattle.std.specs.Prelude.{◌≡◌, bytes_eq};
ghost use Rattle.scoop_pacing.specs.Ask.{may_repeat, after_answer, answered_at, asked_first, asked_again, counts_of, pause_of, trip_of, estimate_after, poll_of, repeat_timeout};

use crate::estimate::{Estimate, MAX_TIMEOUT};
use scoop_link::{Datagram, Party};

// The timeout before the first round trip, in microseconds.
const FIRST_TIMEOUT: u32 = 200_000;

// An answered datagram that is still due goes again at once, at most this often in a row.
const AT_ONCE: u64 = 8;

// The shortest time between two later repeats, in microseconds.
const MIN_POLL: u32 = 5_000;

/// The last datagram that was passed on to a party, with its times in microseconds, and the party's round trips.
#[derive(Drop)]
pub struct Ask {
    pub party: Party,
    pub datagram: Datagram,
    /// When it was passed on last.
    pub sent: u64,
    /// How often it was repeated. It stops at 2^64-1.
    pub repeated: u64,
    /// When the first reply of the party since then came, if one has come.
    pub answered: Option<u64>,
    /// How long it waits for a reply, with its part at random.
    pub pause: u64,
    /// The party's timeout, which doubles with each repeat without a reply.
    pub timeout: u32,
    pub estimate: Option<Estimate>,
}

impl Ask {
    /// The first datagram to a party.
    pub(crate) fn first(party: Party, datagram: Datagram, now: u64, seed: u32) -> Ask
        ensures { result ≡ asked_first party datagram now seed }
    {
        Ask {
            party,
            datagram,
            sent: now,
            repeated: 0,
            answered: None,
            pause: pause_of(FIRST_TIMEOUT, seed),
            timeout: FIRST_TIMEOUT,
            estimate: None,
        }
    }

    // Whether it is this datagram.
    pub(crate) fn is_of(&self, datagram: &Datagram) -> bool
        ensures { result ≡ bytes_eq self.now.datagram datagram.now }
    {
        self.datagram.as_slice() == datagram.as_slice()
    }

    /// Whether it may go again now. An answered one goes at once, and after some repeats once a round trip; another one after
    /// its pause.
    pub(crate) fn may_repeat(&self, now: u64) -> bool
        ensures { result ≡ may_repeat self.now now }
    {
        match self.answered {
            Some(answered) => {
                self.repeated < AT_ONCE
                    || u64::from(poll_of(self.estimate)) <= now.saturating_sub(answered)
            }
            None => self.pause <= now.saturating_sub(self.sent),
        }
    }

    /// The next datagram to the party, passed on after this one.
    pub(crate) fn again(&self, datagram: Datagram, now: u64, seed: u32) -> Ask
        ensures { result ≡ asked_again self.now datagram now seed }
    {
        let (repeated, timeout) = self.counts_of(&datagram);
        Ask {
            party: self.party,
            datagram,
            sent: now,
            repeated,
            answered: None,
            pause: pause_of(timeout, seed),
            timeout,
            estimate: self.estimate,
        }
    }

    // The repetitions and the timeout of the next datagram: a repeat, or another one.
    fn counts_of(&self, datagram: &Datagram) -> (u64, u32)
        ensures { result ≡ counts_of self.now datagram.now }
    {
        if self.is_of(datagram) {
            (
                self.repeated.saturating_add(1),
                repeat_timeout(self.answered, self.timeout),
            )
        } else {
            (0, self.timeout)
        }
    }

    /// Hears a reply of its party. Only the first one counts.
    pub(crate) fn answer(&mut self, now: u64)
        ensures { self.new ≡ after_answer now self.old }
    {
        match self.answered {
            Some(_) => {}
            None => self.measure(now),
        }
    }

    // Notes the first reply. It measures a round trip if the datagram went once.
    fn measure(&mut self, now: u64)
        ensures { self.new ≡ answered_at self.old now }
    {
        self.answered = Some(now);
        if self.repeated == 0 {
            let estimate = estimate_after(self.estimate, trip_of(self.sent, now));
            self.timeout = estimate.timeout();
            self.estimate = Some(estimate);
        }
    }
}

// The timeout of a repeat: twice the last one, unless that one was answered.
fn repeat_timeout(answered: Option<u64>, timeout: u32) -> u32
    ensures { result ≡ repeat_timeout answered timeout }
{
    match answered {
        Some(_) => timeout,
        None => timeout.saturating_mul(2).min(MAX_TIMEOUT),
    }
}

// A timeout and up to an eighth of it, by a number at random.
fn pause_of(timeout: u32, seed: u32) -> u64
    ensures { result ≡ pause_of timeout seed }
{
    let part = u64::from(seed % 64);
    u64::from(timeout) + u64::from(timeout) * part / 512
}

// How long a round trip took, at most the longest timeout.
fn trip_of(sent: u64, now: u64) -> u32
    ensures { result ≡ trip_of sent now }
{
    now.saturating_sub(sent).min(u64::from(MAX_TIMEOUT)) as u32
}

// The estimate after one more round trip.
fn estimate_after(estimate: Option<Estimate>, trip: u32) -> Estimate
    ensures { result ≡ estimate_after estimate trip }
{
    match estimate {
        Some(estimate) => estimate.next(trip),
        None => Estimate::first(trip),
    }
}

// The time between two later repeats: a round trip, if it isn't too short.
fn poll_of(estimate: Option<Estimate>) -> u32
    ensures { result ≡ poll_of estimate }
{
    match estimate {
        Some(estimate) => estimate.smooth.max(MIN_POLL),
        None => MIN_POLL,
    }
}
