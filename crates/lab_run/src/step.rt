//! Events.
ghost use Rattle.std.specs.Prelude.{◌≡◌, None, OnOk};
ghost use Rattle.model_lab.specs.Played.{fault_at, happens};
ghost use Rattle.lab_run.specs.Makes.{benches};
ghost use Rattle.lab_run.specs.Shown.{ForRepresented, BecomesLab, StepUnlessMemory, EventStep, CanCountOn, ForgetsOneMore};
ghost use Rattle.lab_run.specs.Hearing.{EventResult};
ghost use Rattle.model_lab.specs.Meaning.{on_board};

use crate::lab_state::Lab;
use crate::others::{idle_fault, message_fault, noise_fault, request_fault};
use bmc_board::Bench;
use model_lab::{Fault, Way};
use std::alloc::AllocError;
use text_lines::{BenchEvent, Event};

/// Why a lab doesn't take an event.
#[derive(Clone, Copy, Debug, PartialEq, Eq)]
pub enum Refused {
    /// Memory was refused.
    Memory,
    /// The event has this fault.
    Fault(Fault),
}

/// What an event on the bench is to the board.
fn on_board(event: BenchEvent) -> Bench
    ensures { result ≡ on_board event }
{
    match event {
        BenchEvent::Scan { sensor, reading } => Bench::Reading {
            sensor,
            raw: reading,
        },
        BenchEvent::Tick => Bench::Tick,
    }
}

impl Lab {
    /// The first thing that is wrong with an event.
    fn fault(&self, event: &Event) -> Option<Fault>
        ensures { ForRepresented self.now (λ file x. result ≡ fault_at file x event.now) }
    {
        let marks = self.marks();
        match event {
            Event::Calls(_) => self.frames.room_fault(),
            Event::ToBmc(number) => self.frames.delivery_fault(Way::ToPort, *number, marks),
            Event::ToMgr(number) => { self.frames.delivery_fault(Way::ToManager, *number, marks) }
            Event::OtherIpmb(request) => match request_fault(&self.names, request) {
                Some(fault) => Some(fault),
                None => self.frames.room_fault(),
            },
            Event::OtherSmbus(message) => match message_fault(&self.names, message) {
                Some(fault) => Some(fault),
                None => self.frames.room_fault(),
            },
            Event::Noise(on, bytes) => noise_fault(*on, bytes.as_slice()),
            Event::Idle(on, requester) => {
                idle_fault(&self.names, *on, *requester, self.manager.open_bus())
            }
            Event::OnBench(_) => None,
        }
    }

    /// The activity of the board changes beside requests. A reading of a sensor that the board doesn't have changes nothing.
    fn bench(&mut self, event: Bench)
        ensures becomes { BecomesLab self.old self.new (benches event) }
        ensures idles { self.new.idles ≡ self.old.idles }
    {
        let _ = self.board.bench(event);
    }

    /// An event without a fault happens.
    fn happen(&mut self, event: &Event) -> Result<(), AllocError>
        requires taken { ForRepresented self.now (λ file x. fault_at file x event.now ≡ None) }
        requires few { CanCountOn self.now.idles }
        ensures becomes { StepUnlessMemory result self.old self.new (λ file. happens file event.now) }
        ensures done { OnOk result (EventResult event.now self.old self.new) }
        ensures few { ForgetsOneMore self.old.idles self.new.idles }
    {
        match event {
            Event::Calls(call) => return self.call(*call),
            Event::ToBmc(number) => return self.to_port(*number),
            Event::ToMgr(number) => return self.to_manager(*number),
            Event::OtherIpmb(request) => return self.other_request(request),
            Event::OtherSmbus(message) => return self.other_message(message),
            Event::Noise(on, bytes) => return self.noise(*on, bytes.as_slice()),
            Event::Idle(on, requester) => self.idle(*on, *requester),
            Event::OnBench(happened) => self.bench(on_board(*happened)),
        }
        Ok(())
    }

    /// One event happens. On a fault nothing changes.
    pub fn step(&mut self, event: &Event) -> Result<(), Refused>
        requires { CanCountOn self.now.idles }
        ensures steps { EventStep event.now self.old result self.new }
        ensures done { OnOk result (EventResult event.now self.old self.new) }
        ensures few { ForgetsOneMore self.old.idles self.new.idles }
    {
        if let Some(fault) = self.fault(event) {
            return Err(Refused::Fault(fault));
        }
        match self.happen(event) {
            Ok(()) => Ok(()),
            Err(_) => Err(Refused::Memory),
        }
    }
}
