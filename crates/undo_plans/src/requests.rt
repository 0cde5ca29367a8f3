//! The list of requests that undo a plan.
//!
//! The data of the requests lie one behind another, and each request has a mark that says where. A request is written where it will lie
//! before it counts.
ghost use Rattle.std.specs.Prelude.{◌≡◌, ◌+◌, ◌<◌, ◌≤◌, [], ◌∷◌, ◌++◌, suc, length, reverse, slice_get, IfOk, IfSome, IfNone, OnErr, OnOk, None, Some};
ghost use Rattle.std.specs.Option.{option_to_list};
ghost use Rattle.undo_plans.specs.Steps.{most_steps};
ghost use Rattle.undo_plans.specs.Requests.{meant, data_of};

use crate::undo_request::{Mark, UndoRequest};
use std::alloc::{AllocError, Global};
use std::marker::Model;

/// At most `MOST_STEPS` requests, each of which undoes a step, in the order of the steps. One more may wait behind them, until its step was
/// done. `prepare` and `keep` take no memory.
pub struct Requests {
    /// The last is that of the request that waits, if there is one.
    marks: Vec<Mark>,
    /// How many requests count.
    counted: usize,
    bytes: Vec<u8>,
    /// How many bytes of data these have.
    kept: usize,
}

// Written out: the crates above would prove a derived one anew.
impl Drop for Requests {
    fn drop(self) {
        let Requests {
            marks,
            counted: _,
            bytes,
            kept: _,
        } = self;
        drop(marks);
        drop(bytes);
    }
}

impl Model for Requests {
    ghost use Rattle.std.specs.Prelude.{◌-◌, length, map, take, slice_get, vec_len, vec_capacity};
    ghost use Rattle.undo_plans.specs.Requests.{RequestList, request_at, AreLaid};

    ghost Value = { RequestList };

    ghost view = { λ r. record {
      members = map (request_at r.bytes.items) (take r.counted r.marks.items);
      waiting = slice_get (map (request_at r.bytes.items) r.marks.items) r.counted;
      places = vec_capacity r.marks - vec_len r.marks;
      room = vec_capacity r.bytes - vec_len r.bytes;
    } };

    ghost invariant = { λ r. AreLaid r.marks.items r.counted r.kept r.bytes.items };
}

impl Requests {
    /// No request, with places for so many, and room for so many bytes of their data.
    pub fn open(alloc: Global, places: usize, room: usize) -> Result<Self, AllocError>
        ensures members { IfOk result (λ requests. requests.members ≡ []) }
        ensures waiting { IfOk result (λ requests. requests.waiting ≡ None) }
        ensures places { IfOk result (λ requests. requests.places ≡ places) }
        ensures room { IfOk result (λ requests. requests.room ≡ room) }
    {
        let marks = Vec::with_capacity(alloc, places)?;
        let bytes = Vec::with_capacity(alloc, room)?;
        Ok(Requests {
            marks,
            counted: 0,
            bytes,
            kept: 0,
        })
    }

    /// How many count.
    pub fn len(&self) -> usize
        ensures value { result ≡ length self.now.members }
        ensures few { result ≤ most_steps }
    {
        self.counted
    }

    /// The request that undoes the step of this place, counted from 0.
    pub fn get(&self, place: usize) -> Option<UndoRequest<'_>>
        ensures there { IfSome result (λ request.
            slice_get self.now.members place ≡ Some (meant request)) }
        ensures missing { IfNone result (slice_get self.now.members place ≡ None) }
    {
        match self.marks.as_slice()[..self.counted].get(place) {
            Some(mark) => Some(mark.request(self.bytes.as_slice())),
            None => None,
        }
    }

    /// The request that is written behind those that count.
    pub fn waiting(&self) -> Option<UndoRequest<'_>>
        ensures there { IfSome result (λ request. self.now.waiting ≡ Some (meant request)) }
        ensures missing { IfNone result (self.now.waiting ≡ None) }
    {
        match self.marks.get(self.counted) {
            Some(mark) => Some(mark.request(self.bytes.as_slice())),
            None => None,
        }
    }

    /// Writes the request that undoes the next step behind those that count, in place of one that waits there.
    pub fn prepare(&mut self, request: &UndoRequest<'_>)
        requires few { length self.old.members < most_steps }
        requires place { 0 < self.old.places }
        requires room { length (data_of (meant request.now)) ≤ self.old.room }
        ensures members { self.new.members ≡ self.old.members }
        ensures waiting { self.new.waiting ≡ Some (meant request.now) }
        ensures places { self.old.places ≤ suc self.new.places }
        ensures room { self.old.room ≤ self.new.room + length (data_of (meant request.now)) }
    {
        let (head, body) = request.parts();
        self.marks.truncate(self.counted);
        self.marks.push_reserved(Mark {
            head,
            start: self.kept,
            end: self.kept + body.len(),
        });
        self.bytes.truncate(self.kept);
        self.bytes.extend_from_slice(body).unwrap();
    }

    /// From now on the one that waits counts, if there is one.
    pub fn keep(&mut self)
        ensures members { self.new.members ≡ self.old.members ++ option_to_list self.old.waiting }
        ensures waiting { self.new.waiting ≡ None }
        ensures places { self.new.places ≡ self.old.places }
        ensures room { self.new.room ≡ self.old.room }
    {
        self.counted = self.marks.len();
        self.kept = self.bytes.len();
    }

    /// Takes the memory that so many more requests need, with so many bytes of data together.
    pub fn reserve(&mut self, places: usize, room: usize) -> Result<(), AllocError>
        ensures members { self.new.members ≡ self.old.members }
        ensures waiting { self.new.waiting ≡ self.old.waiting }
        ensures places { OnOk result (places ≤ self.new.places) }
        ensures room { OnOk result (room ≤ self.new.room) }
    {
        self.marks.reserve(places)?;
        self.bytes.reserve(room)
    }

    /// Writes the request that undoes the next step behind those that count, in place of one that waits there, and takes the memory that it needs.
    pub fn hold(&mut self, request: &UndoRequest<'_>) -> Result<(), AllocError>
        requires { length self.old.members < most_steps }
        ensures members { self.new.members ≡ self.old.members }
        ensures waiting { OnOk result (self.new.waiting ≡ Some (meant request.now)) }
        ensures kept { OnErr result (self.new.waiting ≡ self.old.waiting) }
    {
        self.reserve(1, request.body().len())?;
        self.prepare(request);
        Ok(())
    }

    /// Adds the request that undoes the next step, and takes the memory that it needs.
    pub fn add(&mut self, request: &UndoRequest<'_>) -> Result<(), AllocError>
        requires few { length self.old.members < most_steps }
        requires none { self.old.waiting ≡ None }
        ensures members { OnOk result (self.new.members
            ≡ self.old.members ++ meant request.now ∷ []) }
        ensures kept { OnErr result (self.new.members ≡ self.old.members) }
        ensures waiting { self.new.waiting ≡ None }
    {
        self.hold(request)?;
        self.keep();
        Ok(())
    }

    /// Turns the order of the requests round.
    pub fn reverse(&mut self)
        requires { self.old.waiting ≡ None }
        ensures members { self.new.members ≡ reverse self.old.members }
        ensures waiting { self.new.waiting ≡ None }
    {
        self.marks.as_mut_slice().reverse();
    }
}
