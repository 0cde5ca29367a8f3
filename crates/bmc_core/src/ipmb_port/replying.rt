//! What a port replies to requests, and what it keeps of them.
ghost use Rattle.std.specs.Prelude.{◌≡◌, ◌≤◌, ◌-◌, ◌∷◌, [], length, drop, slice_index, true, false, IfErr, OnErr};
ghost use Rattle.two_wire.specs.Sizes.{most_ipmb_bytes, most_ipmi_reply_data};
ghost use Rattle.two_wire.specs.declared.Bus.TheVariants.{Ipmb};
ghost use Rattle.bmc_core.specs.Outs.{sends, ReadBack};
ghost use Rattle.bmc_core.specs.IpmbShown.{reading, HasUnits, IsNewRequest, RepeatsTo, SettlesRequest, KeepsAnswer, response_frame, ResponseIsRead, first_answer, first_response};
ghost use Rattle.bmc_core.specs.IpmbServed.{BeginsResponse, IsEnded, AnswersBy, CarriesOut};

use super::pending::RequestInFrame;
use crate::out::{Disposition, Out};
use crate::window_request::Found;
use crate::windows::Windows;
use bmc_board::Carrier;
use cfg_records::{Answered, byte_at};
use ipmb_frame::{Header, begin_response, end_response, write_response_into};
use two_wire::circles::SEQUENCE_NUMBERS;
use two_wire::size::MOST_IPMB_BYTES;
use two_wire::{Code, Frame, code};

/// The requests that a port carried out, with the frames of their responses. A response has at most 32 bytes, and a request at most 27
/// behind the first that is kept.
pub(super) type Kept = Windows<{ SEQUENCE_NUMBERS }, { MOST_IPMB_BYTES }>;

/// Has a request carried out, and makes the frame its response.
fn respond<C: Carrier>(
    carrier: &C,
    kept: &mut C::Kept,
    request: &RequestInFrame<'_>,
    frame: &mut Frame,
) -> Result<(), C::Refusal>
    ensures answered { AnswersBy C.Carrier carrier.now kept.old request.now result
        frame.new kept.new }
    ensures refused { IfErr result (λ why. C.refuses carrier.now kept.old why kept.new) }
{
    let header = request.header();
    begin_response(frame, header, 0);
    match carrier.carry(kept, &request.asked(), frame) {
        Ok(given) => {
            finish(frame, header, given);
            Ok(())
        }
        Err(why) => Err(why),
    }
}

/// Ends a response to which data were appended, or makes it that of a refusal.
#[inline(always)]
fn finish(frame: &mut Frame, header: &Header, given: Result<(), Code>)
    requires { BeginsResponse header.now given frame.old }
    ensures { IsEnded header.now given frame.old frame.new }
{
    match given {
        Ok(()) => end_response(frame),
        Err(code) => {
            begin_response(frame, header, code.value());
            end_response(frame);
        }
    }
}

/// Sends the response of this header, code and data, to a request that isn't carried out. The caller has noted in `out` what was done.
#[inline(always)]
fn send(out: &mut Out, header: &Header, code: u8, body: &[u8])
    requires { length body.now ≤ most_ipmi_reply_data }
    ensures sent { out.new ≡ sends (response_frame header.now code body.now ∷ []) out.old.done }
    ensures read { ResponseIsRead header.now code body.now }
{
    out.frames.keep_one();
    match out.frames.list.as_mut_slice() {
        [frame] => write_response_into(frame, header, code, body),
        _ => unreachable!(),
    }
}

/// The code and the data of a response, in its frame.
fn reply_in(frame: &[u8]) -> (u8, &[u8])
    ensures code { result.0 ≡ slice_index (reading.reply frame.now) 3 }
    ensures body { result.1.now ≡ drop 4 (reading.reply frame.now) }
    ensures fits { length result.1.now ≤ length frame.now - 8 }
{
    let [checked @ .., _check] = frame else {
        return (0, &[]);
    };
    (byte_at(checked, 6), checked.get(7..).unwrap_or(&[]))
}

/// Sends the frame that is kept for the request of this header once more. One from another address is written anew, from the
/// header's. The caller has noted in `out` what was done.
#[inline(always)]
fn repeat(out: &mut Out, header: &Header, kept: &[u8])
    requires units { HasUnits header.now }
    requires fits { length kept.now ≤ most_ipmb_bytes }
    ensures { RepeatsTo header.now kept.now out.old.done out.new }
{
    out.frames.keep_one();
    match out.frames.list.as_mut_slice() {
        [frame] => {
            if byte_at(kept, 3) == header.responder.address.byte() {
                frame.replace(kept);
            } else {
                let (code, body) = reply_in(kept);
                write_response_into(frame, header, code, body);
            }
        }
        _ => unreachable!(),
    }
}

/// Answers a request that isn't new: by the response that is kept for it, or that the port is busy. Returns whether it did.
pub(super) fn settle(windows: &Kept, request: &RequestInFrame<'_>, out: &mut Out) -> bool
    ensures fresh { result ≡ false → IsNewRequest windows.now request.now }
    ensures settles { SettlesRequest windows.now request.now out.new result }
{
    let heard = request.kept();
    match windows.find(&heard) {
        Found::Repeats(kept) => {
            out.done = Disposition::Repeated;
            repeat(out, request.header(), kept.as_slice());
            true
        }
        Found::Busy => {
            out.done = Disposition::Busy;
            send(out, request.header(), code::NODE_BUSY.value(), &[]);
            true
        }
        Found::New => false,
    }
}

/// Keeps a new request with the response of this answer, and sends that.
pub(super) fn keep_answer(
    windows: &mut Kept,
    request: &RequestInFrame<'_>,
    answered: &Answered,
    out: &mut Out,
)
    requires { length answered.now.body ≤ most_ipmi_reply_data }
    ensures kept { KeepsAnswer windows.old request.now answered.now windows.new }
    ensures sent { out.new ≡ first_answer request.now answered.now }
    ensures read { ReadBack Ipmb (first_response request.now answered.now ∷ []) }
{
    let heard = request.kept();
    out.done = Disposition::Answered;
    out.frames.keep_one();
    match out.frames.list.as_mut_slice() {
        [frame] => {
            write_response_into(
                frame,
                request.header(),
                answered.code,
                answered.body.as_slice(),
            );
            windows.keep(&heard, frame.as_slice());
        }
        _ => unreachable!(),
    }
}

/// Has a new request carried out, keeps it with its response, and sends that. Where it isn't carried out, nothing is kept.
pub(super) fn carry_out<C: Carrier>(
    windows: &mut Kept,
    carrier: &C,
    kept: &mut C::Kept,
    request: &RequestInFrame<'_>,
    out: &mut Out,
) -> Result<(), C::Refusal>
    ensures carried { CarriesOut C.Carrier carrier.now kept.old windows.old request.now result
        kept.new windows.new out.new }
    ensures refused { IfErr result (λ why. C.refuses carrier.now kept.old why kept.new) }
    ensures same { OnErr result (windows.new ≡ windows.old) }
{
    out.done = Disposition::Answered;
    out.frames.keep_one();
    match out.frames.list.as_mut_slice() {
        [frame] => match respond(carrier, kept, request, frame) {
            Ok(()) => {
                windows.keep(&request.kept(), frame.as_slice());
                Ok(())
            }
            Err(why) => Err(why),
        },
        _ => unreachable!(),
    }
}
