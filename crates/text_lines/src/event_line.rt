//! The lines of a schedule.
ghost use Rattle.std.specs.Prelude.{◌≡◌, ◌%◌, [], ◌∷◌, map, codes};
ghost use Rattle.text_lines.specs.ScheduleText.{IsByte};
ghost use Rattle.text_lines.specs.EventLine.{IsOtherRequest, AreWordsOf, IsLineOf};
ghost use Rattle.text_lines.specs.Reads.{FindsOne, ReadsLine, ReadsBytes};

use crate::event::{BenchEvent, Event, OtherMessage, OtherRequest};
use crate::octets::Octets;
use crate::schedule_cuts::{find_call, frame_number, words};
use crate::spelt::{byte, bytes};
use ipmb_frame::Party;
use std::alloc::Global;
use two_wire::size::MOST_IPMI_REQUEST_DATA;
use two_wire::{Address, Below, Bus, Bytes, NetFn};

/// Why a line gives no event.
#[derive(Clone, Copy, Debug, PartialEq, Eq)]
pub enum LineFault {
    /// Memory was refused.
    Memory,
    /// The line says no event.
    Bad,
}

/// The bytes that the digits say.
fn some_bytes(alloc: Global, digits: &str) -> Result<Vec<u8>, LineFault>
    ensures { ReadsBytes digits.now result }
{
    match bytes(alloc, digits) {
        Ok(Some(bytes)) => Ok(bytes),
        Ok(None) => Err(LineFault::Bad),
        Err(_) => Err(LineFault::Memory),
    }
}

/// The event that one word says.
fn one_word(word: &str) -> Option<Event>
    ensures { FindsOne (AreWordsOf (word.now ∷ [])) result }
{
    if word == "tick" {
        return Some(Event::OnBench(BenchEvent::Tick));
    }
    let call = find_call(word)?;
    Some(Event::Calls(call))
}

/// The event that the words `to-bmc` or `to-mgr` and a number say.
fn delivery(word: &str, digits: &str) -> Option<Event>
    ensures { FindsOne (AreWordsOf (word.now ∷ digits.now ∷ [])) result }
{
    let frame = frame_number(digits)?;
    match word {
        "to-bmc" => Some(Event::ToBmc(frame)),
        "to-mgr" => Some(Event::ToMgr(frame)),
        _ => None,
    }
}

/// The event that the words `idle`, a bus and a requester say.
fn idle(name: &str, from: &str) -> Option<Event>
    ensures { FindsOne (AreWordsOf (codes "idle" ∷ name.now ∷ from.now ∷ [])) result }
{
    let bus = Bus::named(name)?;
    let requester = byte(from)?;
    Some(Event::Idle(bus, requester))
}

/// The event that the words `scan`, a sensor and a reading say.
fn scan(sensor: &str, reading: &str) -> Option<Event>
    ensures { FindsOne (AreWordsOf (codes "scan" ∷ sensor.now ∷ reading.now ∷ [])) result }
{
    let sensor = byte(sensor)?;
    let reading = byte(reading)?;
    Some(Event::OnBench(BenchEvent::Scan { sensor, reading }))
}

/// The event that the words `noise`, a bus and bytes say.
fn noise(alloc: Global, name: &str, digits: &str) -> Result<Event, LineFault>
    ensures { ReadsLine (AreWordsOf (codes "noise" ∷ name.now ∷ digits.now ∷ [])) result }
{
    let Some(bus) = Bus::named(name) else {
        return Err(LineFault::Bad);
    };
    let heard = some_bytes(alloc, digits)?;
    match Octets::new(heard) {
        Some(heard) => Ok(Event::Noise(bus, heard)),
        None => Err(LineFault::Bad),
    }
}

/// The request of these bytes from this address.
fn request(from: Address, bytes: &[u8]) -> Option<OtherRequest>
    ensures { FindsOne (λ r. (r.requester.address ≡ from) × IsOtherRequest r bytes.now) result }
{
    let [function, sequence, command, body @ ..] = bytes else {
        return None;
    };
    let net_fn = function / 4;
    if net_fn % 2 != 0 || body.len() > MOST_IPMI_REQUEST_DATA {
        return None;
    }
    Some(OtherRequest {
        requester: Party {
            address: from,
            lun: Below::new(sequence % 4),
        },
        responder: Below::new(function % 4),
        net_fn: NetFn::new(net_fn),
        sequence: Below::new(sequence / 4),
        command: *command,
        body: Bytes::from_slice(body),
    })
}

/// The address that the digits say.
fn address(digits: &str) -> Option<Address>
    ensures { FindsOne (λ address. IsByte digits.now address × (address % 2 ≡ 0)) result }
{
    let byte = byte(digits)?;
    Address::new(byte)
}

/// The event that the words `other`, `ipmb`, a requester and a request's bytes say.
fn other_ipmb(alloc: Global, from: &str, digits: &str) -> Result<Event, LineFault>
    ensures { ReadsLine
        (AreWordsOf (codes "other" ∷ codes "ipmb" ∷ from.now ∷ digits.now ∷ [])) result }
{
    let Some(from) = address(from) else {
        return Err(LineFault::Bad);
    };
    let asked = some_bytes(alloc, digits)?;
    match request(from, asked.as_slice()) {
        Some(request) => Ok(Event::OtherIpmb(request)),
        None => Err(LineFault::Bad),
    }
}

/// The event that the words `other`, `smbus`, an endpoint and a message's bytes say.
fn other_smbus(alloc: Global, from: &str, digits: &str) -> Result<Event, LineFault>
    ensures { ReadsLine
        (AreWordsOf (codes "other" ∷ codes "smbus" ∷ from.now ∷ digits.now ∷ [])) result }
{
    let Some(from) = byte(from) else {
        return Err(LineFault::Bad);
    };
    let asked = some_bytes(alloc, digits)?;
    match Octets::new(asked) {
        Some(body) => Ok(Event::OtherSmbus(OtherMessage { from, body })),
        None => Err(LineFault::Bad),
    }
}

/// The event that three words say.
fn three_words(alloc: Global, word: &str, first: &str, second: &str) -> Result<Event, LineFault>
    ensures { ReadsLine (AreWordsOf (word.now ∷ first.now ∷ second.now ∷ [])) result }
{
    match word {
        "idle" => idle(first, second).ok_or(LineFault::Bad),
        "scan" => scan(first, second).ok_or(LineFault::Bad),
        "noise" => noise(alloc, first, second),
        _ => Err(LineFault::Bad),
    }
}

/// The event that the word `other`, a bus and two more words say.
fn other(alloc: Global, name: &str, from: &str, digits: &str) -> Result<Event, LineFault>
    ensures { ReadsLine
        (AreWordsOf (codes "other" ∷ name.now ∷ from.now ∷ digits.now ∷ [])) result }
{
    match Bus::named(name) {
        Some(Bus::Ipmb) => other_ipmb(alloc, from, digits),
        Some(Bus::Smbus) => other_smbus(alloc, from, digits),
        None => Err(LineFault::Bad),
    }
}

/// The event that four words say.
fn four_words(
    alloc: Global,
    word: &str,
    name: &str,
    from: &str,
    digits: &str,
) -> Result<Event, LineFault>
    ensures { ReadsLine (AreWordsOf (word.now ∷ name.now ∷ from.now ∷ digits.now ∷ [])) result }
{
    match word {
        "other" => other(alloc, name, from, digits),
        _ => Err(LineFault::Bad),
    }
}

/// The event that the words say.
fn event_of(alloc: Global, words: &[&str]) -> Result<Event, LineFault>
    ensures { ReadsLine (AreWordsOf (map (λ x. x.now) words.now)) result }
{
    match *words {
        [word] => one_word(word).ok_or(LineFault::Bad),
        [word, digits] => delivery(word, digits).ok_or(LineFault::Bad),
        [word, first, second] => three_words(alloc, word, first, second),
        [word, bus, from, digits] => four_words(alloc, word, bus, from, digits),
        _ => Err(LineFault::Bad),
    }
}

/// The event that the line says.
pub fn read_line(alloc: Global, line: &str) -> Result<Event, LineFault>
    ensures { ReadsLine (IsLineOf line.now) result }
{
    match words(alloc, line) {
        Ok(words) => event_of(alloc, words.as_slice()),
        Err(_) => Err(LineFault::Memory),
    }
}
