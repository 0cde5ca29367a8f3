//! What the controller's ports hear, and what they forget.
ghost use Rattle.std.specs.Prelude.{◌≡◌, OnOk};
ghost use Rattle.std.specs.List.{AllZip};
ghost use Rattle.two_wire.specs.declared.Bus.TheVariants.{Smbus};
ghost use Rattle.ipmb_frame.specs.Grammar.{IsRequest};
ghost use Rattle.bmc_core.specs.Values.{IsFrameOn};
ghost use Rattle.model_lab.specs.Meaning.{other_wire, request_of};
ghost use Rattle.lab_run.specs.Makes.{delivers, hears_request, hears_message, forgets};
ghost use Rattle.lab_run.specs.Shown.{BecomesLab, StepUnlessMemory, CanCountOn, ForgetsOneMore, idles_in};
ghost use Rattle.text_lines.specs.declared.event.Event.TheVariants.{ToBmc};
ghost use Rattle.lab_run.specs.Hearing.{EventResult, SendsOut, PortHears, HearsOther, StaysAtNoise, IgnoresNoise, packets_of};

use crate::ages::FrameAge;
use crate::lab_state::Lab;
use arrayvec::ArrayVec;
use ipmb_frame::{Header, Party, Request, write_request};
use mctp_net::{Envelope, Message, SomeData, Tag, split};
use model_lab::Way;
use std::alloc::AllocError;
use text_lines::{OtherMessage, OtherRequest};
use two_wire::{Address, Bus, Data, Frame};
use undo_plans::Names;

/// The two-wire address of all others on the System Management Bus.
const OTHER_WIRE: u8 = 0x42;

/// The address of all others.
fn others() -> Address
    ensures { result ≡ other_wire }
{
    Address::new(OTHER_WIRE).unwrap()
}

/// The frame of somebody else's request to the controller.
fn request_frame(names: &Names, request: &OtherRequest) -> Frame
    ensures { IsRequest (request_of names.now request.now) result }
{
    let header = Header {
        responder: Party {
            address: names.peer_address,
            lun: request.responder,
        },
        requester: request.requester,
        net_fn: request.net_fn,
        sequence: request.sequence,
        command: request.command,
    };
    let body = Data::new(request.body.as_slice());
    write_request(&Request { header, body })
}

/// The frames of somebody else's message to the controller.
fn message_frames(names: &Names, message: &OtherMessage) -> ArrayVec<Frame, 4>
    ensures { AllZip (IsFrameOn Smbus) (packets_of names.now message.now) result.items }
{
    let envelope = Envelope {
        destination: names.peer_wire,
        source: others(),
        destination_eid: names.peer_eid,
        source_eid: message.from,
        tag_owner: true,
        tag: Tag::new(0),
    };
    let body = SomeData::new(message.body.as_slice());
    split(&Message { envelope, body })
}

impl Lab {
    /// The frame of this number comes to the controller's port on its bus, if there is such a frame.
    pub(crate) fn to_port(&mut self, number: u32) -> Result<(), AllocError>
        ensures becomes { StepUnlessMemory result self.old self.new (delivers number) }
        ensures done { OnOk result (EventResult (ToBmc number) self.old self.new) }
        ensures idles { self.new.idles ≡ self.old.idles }
    {
        let Some(frame) = self.frames.get(number) else {
            return Ok(());
        };
        let mark = frame.mark;
        let bytes = frame.bytes.copy();
        self.hear(mark.on, bytes.as_slice());
        let reply = mark.reply(self.idles.on(mark.on));
        self.send_out(Way::ToManager, reply)
    }

    /// Somebody else's request comes to the port on IPMB.
    pub(crate) fn other_request(&mut self, request: &OtherRequest) -> Result<(), AllocError>
        ensures becomes { StepUnlessMemory result self.old self.new (hears_request request.now) }
        ensures idles { self.new.idles ≡ self.old.idles }
    {
        let frame = request_frame(&self.names, request);
        self.hear_other(Bus::Ipmb, frame.as_slice())
    }

    /// All packets of somebody else's message come to the port on the System Management Bus.
    pub(crate) fn other_message(&mut self, message: &OtherMessage) -> Result<(), AllocError>
        ensures becomes { StepUnlessMemory result self.old self.new (hears_message message.now) }
        ensures idles { self.new.idles ≡ self.old.idles }
    {
        let frames = message_frames(&self.names, message);
        for frame in frames.as_slice() {
            self.hear_other(Bus::Smbus, frame.as_slice())?;
        }
        Ok(())
    }

    /// Somebody else's frame comes to the port on its bus, and what the port sends goes to others. Bytes that are no frame change nothing.
    pub(crate) fn hear_other(&mut self, on: Bus, bytes: &[u8]) -> Result<(), AllocError>
        ensures becomes { OnOk result (HearsOther on bytes.now self.old self.new) }
        ensures noise { OnOk result (StaysAtNoise on bytes.now self.old self.new) }
        ensures ignored { OnOk result (IgnoresNoise on bytes.now self.old self.new) }
        ensures idles { self.new.idles ≡ self.old.idles }
    {
        self.hear(on, bytes);
        let mark = FrameAge {
            on,
            request: 0,
            idles: self.idles.on(on),
        };
        self.send_out(Way::ToOthers, mark)
    }

    /// A frame comes to the port on its bus, which fills in what it sends. Of other bytes it says what is wrong with them.
    fn hear(&mut self, on: Bus, bytes: &[u8])
        ensures port { PortHears on bytes.now self.old self.new }
        ensures idles { self.new.idles ≡ self.old.idles }
    {
        match on {
            Bus::Ipmb => self.ipmb.on_frame(&mut self.board, bytes, &mut self.out),
            Bus::Smbus => self.smbus.on_frame(&mut self.board, bytes, &mut self.out),
        }
    }

    /// The lab sends what a port filled in last, this way and with this mark.
    fn send_out(&mut self, way: Way, mark: FrameAge) -> Result<(), AllocError>
        requires { mark.idles ≡ idles_in mark.on self.old.idles }
        ensures sent { OnOk result (SendsOut way mark self.old self.new) }
        ensures out { self.new.out ≡ self.old.out }
        ensures idles { self.new.idles ≡ self.old.idles }
    {
        self.frames.send(way, mark, self.out.frames.as_slice())
    }

    /// The port on a bus forgets a requester's window.
    pub(crate) fn idle(&mut self, on: Bus, requester: u8)
        requires { CanCountOn self.now.idles }
        ensures becomes { BecomesLab self.old self.new (forgets on requester) }
        ensures few { ForgetsOneMore self.old.idles self.new.idles }
    {
        match on {
            Bus::Ipmb => {
                self.ipmb.idle(requester);
                if requester == self.names.own_address.byte() {
                    self.idles.ipmb += 1;
                }
            }
            Bus::Smbus => {
                self.smbus.idle(requester);
                if requester == self.names.own_eid {
                    self.idles.smbus += 1;
                }
            }
        }
    }
}
