//! The windows of a port, found by the requester's byte.
ghost use Rattle.std.specs.Prelude.{◌≡◌, ◌≤◌, [], ◌∷◌, List, length, ◌==◌, IsTrue, IfOk, Some, None};
ghost use Rattle.std.specs.List.{position, list_any};
ghost use Rattle.std.specs.Option.{is_none};
ghost use Rattle.model_bus.specs.Request.{Entry, Carried, Idled};
ghost use Rattle.model_bus.specs.Carried.{outcome, IsBusy, IsNew, requesters};
ghost use Rattle.model_bus.specs.Numbering.{is_above};
ghost use Rattle.bmc_core.specs.Circle.{is_circle};
ghost use Rattle.bmc_core.specs.Keeps.{Reading, WindowsKeep, slot_of};
ghost use Rattle.bmc_core.specs.Heard.{request_of, kept_of, outcome_of_found};

use crate::window::Window;
use crate::window_request::{Found, WindowRequest};
use model_bus::REQUESTERS;
use std::alloc::{AllocError, Global};
use std::marker::Model;
use two_wire::Below;

/// How many requesters can have a window at once.
const MOST_WINDOWS: u8 = 8;

/// The number of windows, as a length.
const COUNT: usize = MOST_WINDOWS as usize;

/// A window of a port.
type Slot = Below<{ MOST_WINDOWS }>;

/// The requests that a port carried out, with their replies, for at most `MOST_WINDOWS` requesters. `NUMBERS` is `SEQUENCE_NUMBERS`
/// on IPMB and `INSTANCES` for PLDM. A reply has at most `CAP` bytes, and so has a request behind its first byte.
pub struct Windows<const NUMBERS: u8, const CAP: usize> {
    /// The window that each requester has, by its byte.
    slots: [Option<Slot>; REQUESTERS],
    /// The requester that has each window.
    owners: [Option<u8>; COUNT],
    windows: Vec<Window<NUMBERS, CAP>>,
}

// Written out: the crates above would prove a derived one anew.
impl<const NUMBERS: u8, const CAP: usize> Drop for Windows<NUMBERS, CAP> {
    fn drop(self) {
        let Windows {
            slots: _,
            owners: _,
            windows,
        } = self;
        drop(windows);
    }
}

impl<const NUMBERS: u8, const CAP: usize> Model for Windows<NUMBERS, CAP> {
    ghost use Rattle.bmc_core.specs.Keeps.{HeldWindows, AreSoundWindows};

    ghost Value = { HeldWindows };

    ghost view = { λ w. record { slots = w.slots; owners = w.owners; rooms = w.windows.items } };

    ghost invariant = { λ w. AreSoundWindows NUMBERS CAP
        (record { slots = w.slots; owners = w.owners; rooms = w.windows.items }) };
}

impl<const NUMBERS: u8, const CAP: usize> Windows<NUMBERS, CAP> {
    /// No requests. All memory is taken here.
    pub fn new(alloc: Global) -> Result<Self, AllocError>
        requires circle { IsTrue (is_circle NUMBERS) }
        requires room { CAP ≤ 65535 }
        ensures { IfOk result (λ windows. (reading : Reading)
            → WindowsKeep NUMBERS reading windows []) }
    {
        let mut windows = Vec::with_capacity(alloc, COUNT)?;
        for _place in 0..MOST_WINDOWS {
            windows.push(Window::new(alloc)?)?;
        }
        Ok(Windows {
            slots: [None; REQUESTERS],
            owners: [None; COUNT],
            windows,
        })
    }

    /// The window that a requester has.
    fn slot(&self, requester: u8) -> Option<Slot>
        ensures { result ≡ slot_of self.now requester }
    {
        self.slots[usize::from(requester)]
    }

    /// A window that no requester has.
    fn free(&self) -> Option<usize>
        ensures { result ≡ position is_none self.now.owners }
    {
        self.owners.iter().position(|owner| owner.is_none())
    }

    /// What is to be done with a request. A repeat is looked for first.
    pub fn find<'a>(&'a self, request: &WindowRequest<'_, NUMBERS>) -> Found<'a, CAP>
        ensures { (reading : Reading) (log : List Entry) → WindowsKeep NUMBERS reading self.now log
            → outcome_of_found reading result
            ≡ outcome (is_above NUMBERS) (request_of reading request.now) log }
    {
        let number = request.number.number();
        match self.slot(request.requester) {
            Some(slot) => {
                let window = &self.windows[usize::from(slot.number())];
                match window.find(number, request.first, request.rest) {
                    Some(reply) => Found::Repeats(reply),
                    None => Found::New,
                }
            }
            None => match self.free() {
                Some(_) => Found::New,
                None => Found::Busy,
            },
        }
    }

    /// Gives the requester, which has no window, a free one, and keeps the request there.
    fn begin(&mut self, request: &WindowRequest<'_, NUMBERS>, reply: &[u8])
        requires none { slot_of self.old request.now.requester ≡ None }
        requires room { length request.now.rest.now ≤ CAP }
        requires fits { length reply.now ≤ CAP }
        ensures carried { (reading : Reading) (log : List Entry)
            → WindowsKeep NUMBERS reading self.old log
            → outcome (is_above NUMBERS) (request_of reading request.now) log ≡ IsNew
            → WindowsKeep NUMBERS reading self.new
            (Carried (kept_of reading request.now reply.now) ∷ log) }
        ensures busy { (reading : Reading) (log : List Entry)
            → WindowsKeep NUMBERS reading self.old log
            → outcome (is_above NUMBERS) (request_of reading request.now) log ≡ IsBusy
            → self.new ≡ self.old }
    {
        let number = request.number.number();
        let Some(place) = self.free() else { return };
        self.slots[usize::from(request.requester)] = Some(Slot::new(place as u8));
        self.owners[place] = Some(request.requester);
        let window = &mut self.windows[place];
        window.clear();
        window.keep(number, request.first, request.rest, reply);
    }

    /// Keeps a request that was carried out, with its reply. For a ninth requester nothing changes.
    pub fn keep(&mut self, request: &WindowRequest<'_, NUMBERS>, reply: &[u8])
        requires room { length request.now.rest.now ≤ CAP }
        requires fits { length reply.now ≤ CAP }
        ensures carried { (reading : Reading) (log : List Entry)
            → WindowsKeep NUMBERS reading self.old log
            → outcome (is_above NUMBERS) (request_of reading request.now) log ≡ IsNew
            → WindowsKeep NUMBERS reading self.new
            (Carried (kept_of reading request.now reply.now) ∷ log) }
        ensures busy { (reading : Reading) (log : List Entry)
            → WindowsKeep NUMBERS reading self.old log
            → outcome (is_above NUMBERS) (request_of reading request.now) log ≡ IsBusy
            → self.new ≡ self.old }
    {
        let number = request.number.number();
        match self.slot(request.requester) {
            Some(slot) => {
                let window = &mut self.windows[usize::from(slot.number())];
                window.keep(number, request.first, request.rest, reply);
            }
            None => self.begin(request, reply),
        }
    }

    /// Forgets a requester's window, and says whether there was one.
    pub fn idle(&mut self, requester: u8) -> bool
        ensures keeps { (reading : Reading) (log : List Entry)
            → WindowsKeep NUMBERS reading self.old log
            → WindowsKeep NUMBERS reading self.new (Idled requester ∷ log) }
        ensures had { (reading : Reading) (log : List Entry)
            → WindowsKeep NUMBERS reading self.old log
            → result ≡ list_any (λ q. q == requester) (requesters log) }
    {
        match self.slot(requester) {
            Some(slot) => {
                self.slots[usize::from(requester)] = None;
                self.owners[usize::from(slot.number())] = None;
                true
            }
            None => false,
        }
    }
}
