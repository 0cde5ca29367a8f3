//! What is wrong with a delivery.
ghost use Rattle.std.specs.Prelude.{◌≡◌};
ghost use Rattle.lab_run.specs.FramesShown.{marks_on};
ghost use Rattle.lab_run.specs.Checked.{TellsDelivery, TellsRoom};

use crate::ages::BusAge;
use crate::frames::Frames;
use model_lab::{Fault, Way};
use two_wire::Bus;

/// What tells on both buses which frames are too old.
#[derive(Clone, Copy)]
pub struct Ages {
    pub ipmb: BusAge,
    pub smbus: BusAge,
}

impl Ages {
    /// The ages on one bus.
    fn on(self, bus: Bus) -> BusAge
        ensures { result ≡ marks_on bus self }
    {
        match bus {
            Bus::Ipmb => self.ipmb,
            Bus::Smbus => self.smbus,
        }
    }
}

impl Frames {
    /// The first thing that is wrong with the delivery of the frame of this number to this end.
    pub fn delivery_fault(&self, way: Way, number: u32, marks: Ages) -> Option<Fault>
        ensures { TellsDelivery self.now marks way number result }
    {
        let Some(frame) = self.get(number) else {
            return Some(Fault::NoFrame);
        };
        if !frame.way.is(way) {
            return Some(Fault::WrongWay);
        }
        if !frame.mark.is_live(marks.on(frame.mark.on)) {
            return Some(Fault::Aged);
        }
        self.room_fault()
    }

    /// What is wrong with an event that may send a frame and has nothing else wrong.
    pub fn room_fault(&self) -> Option<Fault>
        ensures { TellsRoom self.now result }
    {
        if self.is_full() {
            Some(Fault::Room)
        } else {
            None
        }
    }
}
