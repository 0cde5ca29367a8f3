//! One requester's window.
ghost use Rattle.std.specs.Prelude.{◌≡◌, ◌<◌, ◌≤◌, ◌∷◌, length, IsTrue, IfOk};
ghost use Rattle.std.specs.Str.{bytes_eq};
ghost use Rattle.bmc_core.specs.Circle.{is_circle};
ghost use Rattle.bmc_core.specs.Window.{pair_at, reply_to, KeepsAtNumber, IsEmpty};

use crate::circle::next_half;
use std::alloc::{AllocError, Global};
use std::marker::Model;
use two_wire::{Bytes, Data};

/// A request that was carried out, and its reply, as bytes.
#[derive(Drop)]
struct Place<const CAP: usize> {
    /// The request's first byte.
    first: u8,
    /// The request's other bytes.
    rest: Bytes<CAP>,
    reply: Bytes<CAP>,
}

impl<const CAP: usize> Model for Place<CAP> {
    ghost use Rattle.std.specs.Prelude.{◌∷◌};
    ghost use Rattle.bmc_core.specs.Window.{WindowEntry};

    ghost Value = { WindowEntry };

    ghost view = { λ p. record { request = p.first ∷ p.rest; reply = p.reply } };
}

impl<const CAP: usize> Place<CAP> {
    /// A place that holds no request.
    fn new() -> Self {
        Place {
            first: 0,
            rest: Bytes::new(),
            reply: Bytes::new(),
        }
    }

    /// Whether the request is of these bytes.
    fn is(&self, first: u8, rest: &[u8]) -> bool
        ensures { result ≡ bytes_eq (first ∷ rest.now) self.now.request }
    {
        first == self.first && rest == self.rest.as_slice()
    }

    /// Puts this request and its reply in place of those that are there.
    fn set(&mut self, first: u8, rest: &[u8], reply: &[u8])
        requires room { length rest.now ≤ CAP }
        requires fits { length reply.now ≤ CAP }
        ensures { self.new ≡ record { request = first ∷ rest.now; reply = reply.now } }
    {
        self.first = first;
        self.rest.replace(rest);
        self.reply.replace(reply);
    }
}

/// Under each number the request that was carried out with it and its reply, unless they are forgotten.
pub(crate) struct Window<const NUMBERS: u8, const CAP: usize> {
    /// Bit n is set where number n is in use.
    used: u64,
    places: Vec<Place<CAP>>,
}

// Written out: the crates above would prove a derived one anew.
impl<const NUMBERS: u8, const CAP: usize> Drop for Window<NUMBERS, CAP> {
    fn drop(self) {
        let Window { used: _, places } = self;
        drop(places);
    }
}

impl<const NUMBERS: u8, const CAP: usize> Model for Window<NUMBERS, CAP> {
    ghost use Rattle.std.specs.Prelude.{◌≡◌, ◌≤◌, length, IsTrue};
    ghost use Rattle.bmc_core.specs.Circle.{is_circle};
    ghost use Rattle.bmc_core.specs.Window.{Room};

    ghost Value = { Room };

    ghost view = { λ w. record { used = w.used; places = w.places.items } };

    ghost invariant = { λ w. (length w.places.items ≡ NUMBERS) × IsTrue (is_circle NUMBERS)
        × (CAP ≤ 65535) };
}

impl<const NUMBERS: u8, const CAP: usize> Window<NUMBERS, CAP> {
    /// An empty window. All of its memory is taken here.
    pub fn new(alloc: Global) -> Result<Self, AllocError>
        requires circle { IsTrue (is_circle NUMBERS) }
        requires room { CAP ≤ 65535 }
        ensures { IfOk result (λ window. IsEmpty NUMBERS window) }
    {
        let mut places = Vec::with_capacity(alloc, usize::from(NUMBERS))?;
        for _number in 0..NUMBERS {
            places.push(Place::new())?;
        }
        Ok(Window { used: 0, places })
    }

    /// The reply to the request of this number and bytes, if that is kept.
    pub fn find(&self, number: u8, first: u8, rest: &[u8]) -> Option<Data<'_, CAP>>
        requires { number < NUMBERS }
        ensures { result ≡ reply_to (first ∷ rest.now) (pair_at self.now number) }
    {
        if (self.used >> number) & 1 == 0 {
            return None;
        }
        let place = &self.places[usize::from(number)];
        if place.is(first, rest) {
            Some(Data::new(place.reply.as_slice()))
        } else {
            None
        }
    }

    /// Keeps a request and its reply at its number, and forgets the next half of the circle.
    pub fn keep(&mut self, number: u8, first: u8, rest: &[u8], reply: &[u8])
        requires on { number < NUMBERS }
        requires room { length rest.now ≤ CAP }
        requires fits { length reply.now ≤ CAP }
        ensures { KeepsAtNumber NUMBERS number
            (record { request = first ∷ rest.now; reply = reply.now }) self.old self.new }
    {
        let used = self.used;
        let forgotten = next_half::<NUMBERS>(number);
        self.used = (used & !forgotten) | (1 << number);
        self.places[usize::from(number)].set(first, rest, reply);
    }

    /// Forgets all.
    pub fn clear(&mut self)
        ensures { IsEmpty NUMBERS self.new }
    {
        self.used = 0;
    }
}
