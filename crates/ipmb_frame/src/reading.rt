//! Frames to messages.
ghost use Rattle.std.specs.Prelude.{◌≡◌, ◌%◌, IfOk, find};
ghost use Rattle.std.specs.Result.{result_err};
ghost use Rattle.ipmb_frame.specs.declared.message.Msg.{Msg as Message};
ghost use Rattle.ipmb_frame.specs.Fault.{has_fault, faults, net_fn_of, IsFaultless};
ghost use Rattle.ipmb_frame.specs.Grammar.{IsMessage, IsRequest, IsResponse};

use crate::fault::{fault_of, is_of_response};
use crate::{FrameFault, Header, Msg, Party, Request, Response, Sequence};
use two_wire::{Address, Data, Lun, NetFn};

/// The message that the bytes are. Its data lie in them.
pub fn read_frame(bytes: &[u8]) -> Result<Msg<'_>, FrameFault>
    // An error is the first fault that the bytes have, in the order of the faults.
    ensures fault { result_err result ≡ find (has_fault bytes.now) faults }
    // The bytes are the frame that is read.
    ensures read { IfOk result (λ m. IsMessage m bytes.now) }
    // A message's bytes are read as that message.
    ensures whole { (m : Message) → IsMessage m bytes.now → result ≡ Ok m }
{
    match fault_of(bytes) {
        Some(fault) => Err(fault),
        None => Ok(read_message(bytes)),
    }
}

fn read_message(bytes: &[u8]) -> Msg<'_>
    requires { IsFaultless bytes.now }
    ensures { IsMessage result bytes.now }
{
    if is_of_response(bytes[1]) {
        Msg::Response(read_response(bytes))
    } else {
        Msg::Request(read_request(bytes))
    }
}

fn read_request(bytes: &[u8]) -> Request<'_>
    requires faultless { IsFaultless bytes.now }
    requires even { net_fn_of bytes.now % 2 ≡ 0 }
    ensures { IsRequest result bytes.now }
{
    let header = Header {
        responder: read_party(bytes[0], bytes[1]),
        requester: read_party(bytes[3], bytes[4]),
        net_fn: NetFn::new(bytes[1] >> 2),
        sequence: Sequence::new(bytes[4] >> 2),
        command: bytes[5],
    };
    let body = Data::new(&bytes[6..bytes.len() - 1]);
    Request { header, body }
}

fn read_response(bytes: &[u8]) -> Response<'_>
    requires faultless { IsFaultless bytes.now }
    requires odd { net_fn_of bytes.now % 2 ≡ 1 }
    ensures { IsResponse result bytes.now }
{
    let header = Header {
        responder: read_party(bytes[3], bytes[4]),
        requester: read_party(bytes[0], bytes[1]),
        net_fn: NetFn::new((bytes[1] >> 2) - 1),
        sequence: Sequence::new(bytes[4] >> 2),
        command: bytes[5],
    };
    let content = &bytes[6..bytes.len() - 1];
    let body = Data::new(&content[1..]);
    Response {
        header,
        code: content[0],
        body,
    }
}

/// The party of an address, and of the byte that has the logical unit's number in its lower two bits.
fn read_party(address: u8, numbers: u8) -> Party
    requires { address % 2 ≡ 0 }
    ensures address { result.address ≡ address }
    ensures lun { result.lun ≡ numbers % 4 }
{
    Party {
        address: Address::new(address).unwrap(),
        lun: Lun::new(numbers & 3),
    }
}
