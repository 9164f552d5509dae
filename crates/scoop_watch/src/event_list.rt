//! The events of a node since they were last taken.

ghost use Rattle.std.specs.Prelude.{◌≡◌, slice_get};
ghost use Rattle.scoop_watch.specs.Events.{no_events, with_event};

use crate::event::Event;
use arrayvec::ArrayVec;
use std::marker::Model;
use std::mem;

/// The most events that a list has.
pub const MAX_EVENTS: usize = 32;

/// The first `MAX_EVENTS` events since events were last taken, and how many came after these.
#[derive(Drop)]
pub struct EventList {
    events: ArrayVec<Event, MAX_EVENTS>,
    left_out: u64,
}

impl Model for EventList {
    ghost use Rattle.scoop_watch.specs.Events.{Events};

    ghost Value = { Events };

    ghost view = { λ l. record { first = l.events.items; left_out = l.left_out } };
}

impl EventList {
    /// A list without events.
    pub fn new() -> EventList
        ensures { result ≡ no_events }
    {
        EventList {
            events: ArrayVec::new(),
            left_out: 0,
        }
    }

    /// Adds an event, or counts it if the list is full.
    pub fn push(&mut self, event: Event)
        ensures { self.new ≡ with_event event self.old }
    {
        if self.events.is_full() {
            self.left_out = self.left_out.saturating_add(1);
        } else {
            self.events.push(event);
        }
    }

    /// The event at a place, counted from 0.
    pub fn get(&self, place: usize) -> Option<Event>
        ensures { result ≡ slice_get self.now.first place }
    {
        self.events.get(place).copied()
    }

    /// How many events came after those of the list.
    pub fn left_out(&self) -> u64
        ensures { result ≡ self.now.left_out }
    {
        self.left_out
    }

    /// Takes all events out of the list.
    pub fn take(&mut self) -> EventList
        ensures taken { result ≡ self.old }
        ensures none { self.new ≡ no_events }
    {
        mem::replace(self, EventList::new())
    }
}
