//! Histories.
ghost use Rattle.std.specs.Prelude.{◌≡◌, ◌↔◌, IsTrue, Some, slice_get};
ghost use Rattle.bmc_shared.specs.Replay.{calls_of};

use crate::event::{Call, Event};
use crate::events::{Calls, Events};
use std::marker::Model;

/// What was asked of a board and answered, in order.
pub struct History {
    events: Events,
}

// Written out: the crates above would prove a derived one anew.
impl Drop for History {
    fn drop(self) {
        let History { events } = self;
        drop(events);
    }
}

impl Model for History {
    ghost use Rattle.std.specs.Prelude.{List};
    ghost use Rattle.bmc_shared.specs.declared.event.Event.{Event};

    ghost Value = { List Event };

    ghost view = { λ h. h.events.items };
}

impl History {
    ghost use Rattle.std.specs.Prelude.{length, slice_get};

    /// The history of these events.
    pub fn new(events: Events) -> History
        ensures { result ≡ events.items }
    {
        History { events }
    }

    /// How many events there are.
    pub fn len(&self) -> usize
        ensures { result ≡ length self.now }
    {
        self.events.len()
    }

    /// The event at a place, if there is one.
    pub fn get(&self, place: usize) -> Option<Event>
        ensures { result ≡ slice_get self.now place }
    {
        self.events.get(place)
    }

    /// The events, given back.
    pub fn into_events(self) -> Events
        ensures { result.items ≡ self }
    {
        let History { events } = self;
        events
    }
}

/// Whether this call stands at that place.
fn is_at(calls: &Calls, place: usize, call: &Call) -> bool
    ensures { IsTrue result ↔ (slice_get calls.now.items place ≡ Some call.now) }
{
    match calls.get(place) {
        Some(there) => there.is(call),
        None => false,
    }
}

/// Whether the calls of that seat are these.
pub fn are_calls(events: &Events, seat: u8, calls: &Calls) -> bool
    ensures { IsTrue result ↔ (calls_of seat events.now.items ≡ calls.now.items) }
{
    let mut found = 0;
    for place in 0..events.len() {
        let Some(event) = events.get(place) else {
            return false;
        };
        if event.seat == seat {
            if !is_at(calls, found, &event.call) {
                return false;
            }
            found += 1;
        }
    }
    found == calls.len()
}
