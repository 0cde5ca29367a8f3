//! What others ask: nothing that sets the configuration.
use crate::chance::Dice;
use ipmb_frame::Party;
use std::alloc::{AllocError, Global};
use text_lines::{Event, Octets, OtherMessage, OtherRequest};
use two_wire::circles::SEQUENCE_NUMBERS;
use two_wire::size::MOST_IPMI_REQUEST_DATA;
use two_wire::{Address, Below, Bytes, Lun, NetFn};

/// A request on IPMB: its network function, its command and its data.
struct Query {
    net_fn: NetFn,
    command: u8,
    body: &'static [u8],
}

/// Get Device ID, Get System GUID (which isn't there), Get Sensor Reading, Get Sensor Thresholds, Get SEL Info, Get SEL Time.
fn any_query(place: u32) -> Query {
    let (net_fn, command, body): (NetFn, u8, &'static [u8]) = match place {
        0 => (NetFn::new(0x06), 0x01, &[]),
        1 => (NetFn::new(0x06), 0x37, &[]),
        2 => (NetFn::new(0x04), 0x2D, &[0x05]),
        3 => (NetFn::new(0x04), 0x27, &[0x05]),
        4 => (NetFn::new(0x0A), 0x40, &[]),
        _ => (NetFn::new(0x0A), 0x48, &[]),
    };
    Query {
        net_fn,
        command,
        body,
    }
}

/// GetTID, GetPLDMTypes, Get Endpoint ID, Get Message Type Support, and a message in two packets of a type that isn't there.
fn other_body(place: u32) -> &'static [u8] {
    match place {
        0 => &[0x01, 0x80, 0x00, 0x02],
        1 => &[0x01, 0x81, 0x00, 0x04],
        2 => &[0x00, 0x82, 0x02],
        3 => &[0x00, 0x83, 0x05],
        _ => &[0x7E; 100],
    }
}

/// A request to the controller on IPMB, from one of four others.
fn other_request(dice: &mut Dice) -> Option<OtherRequest> {
    let Query {
        net_fn,
        command,
        body,
    } = any_query(dice.below(6));
    let from = match dice.below(4) {
        0 => 0x40,
        1 => 0x42,
        2 => 0x44,
        _ => 0x46,
    };
    let sequence = dice.below(u32::from(SEQUENCE_NUMBERS)) as u8;
    if body.len() > MOST_IPMI_REQUEST_DATA {
        return None;
    }
    Some(OtherRequest {
        requester: Party {
            address: Address::new(from)?,
            lun: Lun::new(0),
        },
        responder: Lun::new(0),
        net_fn,
        sequence: Below::new(sequence),
        command,
        body: Bytes::from_slice(body),
    })
}

/// A message to the controller on the System Management Bus, from one of four others.
fn other_message(alloc: Global, dice: &mut Dice) -> Result<Option<OtherMessage>, AllocError> {
    let mut bytes = Vec::new(alloc);
    bytes.extend_from_slice(other_body(dice.below(5)))?;
    let from = 0x10 + dice.below(4) as u8;
    let Some(body) = Octets::new(bytes) else {
        return Ok(None);
    };
    Ok(Some(OtherMessage { from, body }))
}

/// What somebody else asks.
pub(crate) fn other_event(alloc: Global, dice: &mut Dice) -> Result<Option<Event>, AllocError> {
    if dice.below(2) == 0 {
        return Ok(match other_request(dice) {
            Some(request) => Some(Event::OtherIpmb(request)),
            None => None,
        });
    }
    Ok(match other_message(alloc, dice)? {
        Some(message) => Some(Event::OtherSmbus(message)),
        None => None,
    })
}
