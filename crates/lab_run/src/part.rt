//! What is looked at of a packet that comes to the controller's port.
ghost use Rattle.std.specs.Prelude.{◌≡◌, ◌==◌, ◌||◌};
ghost use Rattle.two_wire.specs.declared.Bus.TheVariants.{Smbus};
ghost use Rattle.lab_run.specs.Shown.{ForRepresented, ForSent};
ghost use Rattle.lab_run.specs.Parts.{part_of, part_at};

use crate::frames::SentFrame;
use crate::lab_state::Lab;
use mctp_net::{Tag, read_packet};
use text_lines::Event;
use two_wire::Bus;

/// A packet of the manager that comes to the controller's port on the System Management Bus.
#[derive(Clone, Copy)]
pub struct ManagerPart {
    /// Whether it is the first of its message.
    pub start: bool,
    pub tag: Tag,
    /// The count of the manager's request that it carries.
    pub request: usize,
    /// Whether it goes to the endpoint behind the port, or to whichever has the address.
    pub ours: bool,
}

/// Whether a packet to this endpoint goes to the endpoint behind the port, or to whichever has the address.
fn goes_to(to: u8, own: u8) -> bool
    ensures { result ≡ (to == own || to == 0) }
{
    to == own || to == 0
}

impl Lab {
    /// What is looked at of the packet that a frame on the System Management Bus is.
    fn packet_of(&self, frame: &SentFrame) -> Option<ManagerPart>
        ensures { ForSent self.now frame.now (λ x f.
            f.on ≡ Smbus → result ≡ part_of x f.request f.value) }
    {
        let Ok(packet) = read_packet(frame.bytes.as_slice()) else {
            return None;
        };
        let envelope = packet.envelope;
        let own = self.smbus.at().eid.byte();
        let ours = goes_to(envelope.destination_eid, own);
        Some(ManagerPart {
            start: packet.start,
            tag: envelope.tag,
            request: frame.mark.request,
            ours,
        })
    }

    /// What is looked at of a frame, if it is a packet.
    fn part_of(&self, frame: &SentFrame) -> Option<ManagerPart>
        ensures { ForSent self.now frame.now (λ x f. result ≡ part_of x f.request f.value) }
    {
        match frame.mark.on {
            Bus::Ipmb => None,
            Bus::Smbus => self.packet_of(frame),
        }
    }

    /// The packet that the event brings to the port, if it brings one.
    pub fn part(&self, event: &Event) -> Option<ManagerPart>
        ensures { ForRepresented self.now (λ _ x. result ≡ part_at x event.now) }
    {
        let Event::ToBmc(number) = event else {
            return None;
        };
        let Some(frame) = self.frames.get(*number) else {
            return None;
        };
        self.part_of(frame)
    }
}
