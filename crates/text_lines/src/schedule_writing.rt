//! Schedules, written.
ghost use Rattle.std.specs.Prelude.{◌≡◌, ◌<◌, ◌≤◌, length, ◌∷◌, true, IfOk, string_bytes};
ghost use Rattle.std.specs.List.{AllByRecursion};
ghost use Rattle.hex.specs.Hex.{IsBytes, encode_upper};
ghost use Rattle.text_lines.specs.ScheduleText.{lines_of};
ghost use Rattle.two_wire.specs.Sizes.{most_ipmi_request_data};
ghost use Rattle.text_lines.specs.EventLine.{AreSome, IsOtherRequest, bytes_of, most_noise};
ghost use Rattle.text_lines.specs.Schedule.{AreLinesOf};
ghost use Rattle.text_lines.specs.Written.{AddsLine, IsSaid, byte_digits, has_line, text_of};

use crate::event::{BenchEvent, Event, OtherMessage, OtherRequest};
use std::alloc::{AllocError, Global};
use two_wire::size::MOST_IPMI_REQUEST_DATA;
use two_wire::{Bus, Bytes};

/// The first number of a frame that has more than nine digits.
const NUMBERS_END: u32 = 1_000_000_000;

/// The most bytes of a request without addresses and check bytes: two bytes of numbers, the command and the data.
const MOST_REQUEST: usize = MOST_IPMI_REQUEST_DATA + 3;

/// Whether a line can say the event: the number of a frame has at most nine digits.
pub fn has_line(event: &Event) -> bool
    ensures { result ≡ has_line event.now }
{
    match event {
        Event::ToBmc(number) | Event::ToMgr(number) => *number < NUMBERS_END,
        _ => true,
    }
}

/// The digits of a byte.
fn byte_digits(alloc: Global, byte: u8) -> Result<String, AllocError>
    ensures digits { IfOk result (λ digits. string_bytes digits ≡ byte_digits byte) }
    ensures small { byte < 256 }
{
    hex::encode_upper(alloc, [byte])
}

/// The digits of bytes.
fn digits_of(alloc: Global, bytes: &[u8]) -> Result<String, AllocError>
    ensures digits { IfOk result (λ digits. string_bytes digits ≡ encode_upper bytes.now) }
    ensures small { IsBytes bytes.now }
{
    hex::encode_upper(alloc, bytes)
}

/// The bytes of a request: two bytes of numbers, the command and the data.
fn joined(function: u8, sequence: u8, command: u8, body: &[u8]) -> Bytes<MOST_REQUEST>
    requires { length body.now ≤ most_ipmi_request_data }
    ensures { result ≡ function ∷ sequence ∷ command ∷ body.now }
{
    let mut bytes = Bytes::new();
    bytes.push(function);
    bytes.push(sequence);
    bytes.push(command);
    bytes.extend_from_slice(body);
    bytes
}

/// The bytes of a request without addresses and check bytes.
fn bytes_of(request: &OtherRequest) -> Bytes<MOST_REQUEST>
    ensures value { result ≡ bytes_of request.now }
    ensures is { IsOtherRequest request.now (bytes_of request.now) }
{
    let function = request.net_fn.number() * 4 + request.responder.number();
    let sequence = request.sequence.number() * 4 + request.requester.lun.number();
    let body = request.body.as_slice();
    let _ = request.requester.address.byte();
    joined(function, sequence, request.command, body)
}

/// Adds the line of somebody else's request.
fn push_request(alloc: Global, text: &mut String, request: &OtherRequest) -> Result<(), AllocError>
    ensures text { AddsLine (Event.OtherIpmb request.now) result text.old text.new }
    ensures stands { IsSaid (Event.OtherIpmb request.now) }
{
    let bytes = bytes_of(request);
    let digits = digits_of(alloc, bytes.as_slice());
    let from = byte_digits(alloc, request.requester.address.byte());
    let (digits, from) = (digits?, from?);
    writeln!(text, "other ipmb {from} {digits}")
}

/// Adds the line of somebody else's message.
fn push_message(alloc: Global, text: &mut String, message: &OtherMessage) -> Result<(), AllocError>
    ensures text { AddsLine (Event.OtherSmbus message.now) result text.old text.new }
    ensures stands { IsSaid (Event.OtherSmbus message.now) }
{
    let body = message.body.as_slice();
    let digits = digits_of(alloc, body);
    let from = byte_digits(alloc, message.from);
    let (digits, from) = (digits?, from?);
    writeln!(text, "other smbus {from} {digits}")
}

/// Adds the line of noise.
fn push_noise(alloc: Global, text: &mut String, on: Bus, bytes: &[u8]) -> Result<(), AllocError>
    requires { AreSome most_noise bytes.now }
    ensures text { AddsLine (Event.Noise on bytes.now) result text.old text.new }
    ensures stands { IsSaid (Event.Noise on bytes.now) }
{
    let bus = on.name();
    let digits = digits_of(alloc, bytes)?;
    writeln!(text, "noise {bus} {digits}")
}

/// Adds the line of a window that is forgotten.
fn push_idle(alloc: Global, text: &mut String, on: Bus, requester: u8) -> Result<(), AllocError>
    ensures text { AddsLine (Event.Idle on requester) result text.old text.new }
    ensures stands { IsSaid (Event.Idle on requester) }
{
    let bus = on.name();
    let from = byte_digits(alloc, requester)?;
    writeln!(text, "idle {bus} {from}")
}

/// Adds the line of a reading.
fn push_scan(alloc: Global, text: &mut String, sensor: u8, reading: u8) -> Result<(), AllocError>
    ensures text { AddsLine (Event.OnBench (BenchEvent.Scan sensor reading))
        result text.old text.new }
    ensures stands { IsSaid (Event.OnBench (BenchEvent.Scan sensor reading)) }
{
    let sensor = byte_digits(alloc, sensor)?;
    let reading = byte_digits(alloc, reading)?;
    writeln!(text, "scan {sensor} {reading}")
}

/// Adds the line of an event.
pub fn push_event(alloc: Global, text: &mut String, event: &Event) -> Result<(), AllocError>
    ensures text { AddsLine event.now result text.old text.new }
    ensures stands { has_line event.now ≡ true → IsSaid event.now }
{
    match event {
        Event::ToBmc(number) => writeln!(text, "to-bmc {number}"),
        Event::ToMgr(number) => writeln!(text, "to-mgr {number}"),
        Event::OtherIpmb(request) => push_request(alloc, text, request),
        Event::OtherSmbus(message) => push_message(alloc, text, message),
        Event::Noise(on, bytes) => push_noise(alloc, text, *on, bytes.as_slice()),
        Event::Idle(on, requester) => push_idle(alloc, text, *on, *requester),
        Event::OnBench(BenchEvent::Scan { sensor, reading }) => {
            push_scan(alloc, text, *sensor, *reading)
        }
        _ => {
            let name = event.name();
            writeln!(text, "{name}")
        }
    }
}

/// The text of a schedule in which this happens: a line an event. Reading it gives the events back.
pub fn write_schedule(alloc: Global, events: &[Event]) -> Result<String, AllocError>
    requires { AllByRecursion (λ event. has_line event ≡ true) events.now }
    ensures text { IfOk result (λ text. string_bytes text ≡ text_of events.now) }
    ensures said { IfOk result (λ text. AreLinesOf (lines_of (string_bytes text)) events.now) }
{
    let mut text = String::new(alloc);
    for event in events {
        push_event(alloc, &mut text, event)?;
    }
    Ok(text)
}
