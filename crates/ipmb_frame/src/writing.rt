//! Messages to frames.
ghost use Rattle.std.specs.Prelude.{◌≡◌, ◌+◌, ◌<◌, ◌≤◌, List, ℕ, [], ◌∷◌, ◌++◌, length, drop};
ghost use Rattle.two_wire.specs.Check.{check_byte};
ghost use Rattle.two_wire.specs.Circles.{sequence_numbers};
ghost use Rattle.two_wire.specs.Sizes.{most_frame_bytes, most_ipmi_reply_data};
ghost use Rattle.ipmb_frame.specs.declared.message.Header.{Header as TheHeader};
ghost use Rattle.ipmb_frame.specs.Grammar.{IsParty, IsHeader, IsRequest, IsResponse, packed, checked, response_start, response_lead};

use crate::{Header, Party, Request, Response, Sequence};
use two_wire::{Frame, check_byte};

/// The frame of a request.
pub fn write_request(request: &Request) -> Frame
    ensures { IsRequest request.now result }
{
    let Header {
        responder,
        requester,
        net_fn,
        sequence,
        command,
    } = request.header;
    let mut frame = Frame::new();
    start(&mut frame, responder, net_fn.number(), requester, sequence);
    frame.push(command);
    frame.extend_from_slice(request.body.as_slice());
    finish(&mut frame);
    frame
}

/// The frame of a response.
pub fn write_response(response: &Response) -> Frame
    ensures { IsResponse response.now result }
{
    let mut frame = Frame::new();
    write_response_into(
        &mut frame,
        &response.header,
        response.code,
        response.body.as_slice(),
    );
    frame
}

/// Makes the frame that of the response of this header, code and data, whatever it was. It reads nothing of what it writes, since
/// bytes that were just written are slow to read.
pub fn write_response_into(frame: &mut Frame, header: &Header, code: u8, body: &[u8])
    requires { length body.now ≤ most_ipmi_reply_data }
    ensures { IsResponse (record { header = header.now; code = code; body = body.now }) frame.new }
{
    begin_response(frame, header, code);
    frame.extend_from_slice(body);
    frame.push(body_sum(header, code, body));
}

/// The second checksum of the response of this header, code and data.
fn body_sum(header: &Header, code: u8, body: &[u8]) -> u8
    requires { IsHeader header.now }
    ensures { result ≡ check_byte (response_lead header.now code ++ body.now) }
{
    let from = header.responder;
    let lead = [
        from.address.byte(),
        header.sequence.number() << 2 | from.lun.number(),
        header.command,
        code,
    ];
    check_byte(&lead).wrapping_add(check_byte(body))
}

/// Makes the frame all of the response that stands before its data, whatever it was. The data are appended next, and
/// `end_response` comes last.
pub fn begin_response(frame: &mut Frame, header: &Header, code: u8)
    ensures started { frame.new ≡ response_start header.now code }
    ensures header { IsHeader header.now }
{
    let Header {
        responder,
        requester,
        net_fn,
        sequence,
        command,
    } = *header;
    start(frame, requester, net_fn.number() + 1, responder, sequence);
    frame.push(command);
    frame.push(code);
}

/// Appends the second checksum to a response that was begun, and whose data are there.
pub fn end_response(frame: &mut Frame)
    requires started { 3 ≤ length frame.old }
    requires room { length frame.old < most_frame_bytes }
    ensures response { (header : TheHeader) (code : ℕ) (body : List ℕ) → IsHeader header
        → length body ≤ most_ipmi_reply_data
        → frame.old ≡ response_start header code ++ body
        → IsResponse (record { header = header; code = code; body = body }) frame.new }
    ensures checksum { frame.new ≡ frame.old ++ check_byte (drop 3 frame.old) ∷ [] }
{
    finish(frame);
}

/// Makes the frame the first five bytes of the one that goes to one party and comes from the other.
fn start(frame: &mut Frame, to: Party, function: u8, from: Party, sequence: Sequence)
    requires { function < 64 }
    ensures to { IsParty to }
    ensures from { IsParty from }
    ensures numbered { sequence < sequence_numbers }
    ensures spelled { frame.new ≡ checked (to.address ∷ packed function to.lun ∷ [])
        ++ from.address ∷ packed sequence from.lun ∷ [] }
{
    *frame = Frame::new();
    frame.push(to.address.byte());
    frame.push(function << 2 | to.lun.number());
    frame.push(check_byte(frame.as_slice()));
    frame.push(from.address.byte());
    frame.push(sequence.number() << 2 | from.lun.number());
}

/// Appends the second checksum.
fn finish(frame: &mut Frame)
    requires started { 3 ≤ length frame.old }
    requires room { length frame.old < most_frame_bytes }
    ensures { frame.new ≡ frame.old ++ check_byte (drop 3 frame.old) ∷ [] }
{
    frame.push(check_byte(&frame.as_slice()[3..]));
}
