//! Readings of a sensor, and the events that they make.
ghost use Rattle.std.specs.Prelude.{◌≡◌, ◌+◌, ◌*◌, ◌<◌, ◌≤◌, ◌++◌, [], ◌∷◌, if◌then◌else◌};
ghost use Rattle.std.specs.List.{filter};
ghost use Rattle.arrayvec.specs.ArrayVec.{array_vec_len};
ghost use Rattle.sensor_recs.specs.Readings.{is_upper, is_beyond, reaches, comes_back, crosses, goes_high, offset_of, beyond_after, counts, is_made, events_at, events_of};

use crate::comparator::{Comparator, Event};
use arrayvec::ArrayVec;
use record_base::Hysteresis;

/// The events of a reading, in order: threshold by threshold, the assertion first.
pub type Events = ArrayVec<Event, 12>;

/// Whether the place is one of an upper threshold.
fn is_upper(place: usize) -> bool
    ensures { result ≡ is_upper place }
{
    place >= 3
}

/// Whether a crossing of the threshold at the place goes high, where the reading before was beyond it or not.
fn goes_high(place: usize, was: bool) -> bool
    ensures { result ≡ goes_high place was }
{
    if was {
        !is_upper(place)
    } else {
        is_upper(place)
    }
}

/// Whether the reading is at the threshold or beyond it.
fn reaches(place: usize, threshold: u8, reading: u8) -> bool
    ensures { result ≡ reaches place threshold reading }
{
    if is_upper(place) {
        threshold <= reading
    } else {
        reading <= threshold
    }
}

/// Whether the reading has come back from the threshold by more than the hysteresis.
fn comes_back(place: usize, hysteresis: &Hysteresis, threshold: u8, reading: u8) -> bool
    ensures { result ≡ comes_back place hysteresis.now threshold reading }
{
    let threshold = u16::from(threshold);
    let reading = u16::from(reading);
    if is_upper(place) {
        reading + u16::from(hysteresis.positive) < threshold
    } else {
        threshold + u16::from(hysteresis.negative) < reading
    }
}

impl Event {
    /// The offset of the event, as IPMI numbers the events of thresholds: two for each, going low and going high.
    pub fn offset(&self) -> u8
        requires { self.now.place < 6 }
        ensures { result ≡ offset_of self.now }
    {
        2 * self.place + u8::from(self.high)
    }
}

impl Comparator {
    /// Whether the reading crosses the threshold at the place, where the one before was beyond it or not.
    fn crosses(&self, place: usize, was: bool, reading: u8) -> bool
        requires { place < 6 }
        ensures { result ≡ crosses self.now place was reading }
    {
        if !self.masks.is_there(place) {
            return false;
        }
        let threshold = self.thresholds[place];
        if was {
            comes_back(place, &self.hysteresis, threshold, reading)
        } else {
            reaches(place, threshold, reading)
        }
    }

    /// Whether the reading is beyond the threshold at the place.
    fn is_beyond(&self, place: usize, was: bool, reading: u8) -> bool
        requires { place < 6 }
        ensures { result ≡ is_beyond self.now place was reading }
    {
        if self.crosses(place, was, reading) {
            !was
        } else {
            was
        }
    }

    /// For each threshold, whether the reading is beyond the threshold.
    fn beyond_after(&self, beyond: &[bool; 6], reading: u8) -> [bool; 6]
        ensures { result ≡ beyond_after self.now beyond.now reading }
    {
        [
            self.is_beyond(0, beyond[0], reading),
            self.is_beyond(1, beyond[1], reading),
            self.is_beyond(2, beyond[2], reading),
            self.is_beyond(3, beyond[3], reading),
            self.is_beyond(4, beyond[4], reading),
            self.is_beyond(5, beyond[5], reading),
        ]
    }

    /// Whether the event counts.
    fn counts(&self, event: &Event) -> bool
        requires { event.now.place < 6 }
        ensures { result ≡ counts self.now event.now }
    {
        let mask = if event.deasserted {
            self.enabled.deassertions
        } else {
            self.enabled.assertions
        };
        self.messages && (mask >> event.offset()) & 1 == 1
    }

    /// Adds the event, where it counts.
    fn add(&self, event: Event, events: &mut Events)
        requires of_threshold { event.place < 6 }
        requires room { array_vec_len events.old < 12 }
        ensures items { events.new.items ≡
            events.old.items ++ (if counts self.now event then event ∷ [] else []) }
        ensures few { array_vec_len events.new ≤ array_vec_len events.old + 1 }
    {
        if self.counts(&event) {
            events.push(event);
        }
    }

    /// Adds the events that the reading makes at the threshold at the place.
    fn add_at(&self, beyond: &[bool; 6], place: usize, reading: u8, events: &mut Events)
        requires of_threshold { place < 6 }
        requires room { array_vec_len events.old ≤ 10 }
        ensures items { events.new.items ≡
            events.old.items ++ filter (is_made self.now beyond.now reading) (events_at place) }
        ensures few { array_vec_len events.new ≤ array_vec_len events.old + 2 }
    {
        let was = beyond[place];
        if !self.crosses(place, was, reading) {
            return;
        }
        let high = goes_high(place, was);
        let asserted = Event {
            place: place as u8,
            high,
            deasserted: false,
        };
        let deasserted = Event {
            place: place as u8,
            high: !high,
            deasserted: true,
        };
        self.add(asserted, events);
        self.add(deasserted, events);
    }

    /// The events that the reading makes.
    fn events(&self, beyond: &[bool; 6], reading: u8) -> Events
        ensures { result.items ≡ events_of self.now beyond.now reading }
    {
        let mut events = ArrayVec::new();
        for place in 0..6 {
            self.add_at(beyond, place, reading, &mut events);
        }
        events
    }

    /// Takes a reading, and gives the events that it makes. `beyond` says for each threshold whether the last reading was beyond the
    /// threshold.
    pub fn read_taken(&self, beyond: &mut [bool; 6], reading: u8) -> Events
        ensures events { result.items ≡ events_of self.now beyond.old reading }
        ensures beyond { beyond.new ≡ beyond_after self.now beyond.old reading }
    {
        let events = self.events(beyond, reading);
        *beyond = self.beyond_after(beyond, reading);
        events
    }
}
