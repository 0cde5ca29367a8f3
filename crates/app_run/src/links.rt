//! A manager's links to a controller.
ghost use Rattle.std.specs.Prelude.{◌≡◌, IfSome};
ghost use Rattle.wire_links.specs.Counted.{none_counted};

use std::net::Net;
use wire_links::{Link, LinkFault, UdpLink};

/// How many milliseconds a link waits for a frame, where nothing else is asked for.
pub const WAIT_MS: u32 = 200;

/// The manager's ends of both buses.
#[derive(Drop)]
pub struct BusLinks {
    pub ipmb: UdpLink,
    pub smbus: UdpLink,
}

/// Links to these ports of the controller, which wait so many milliseconds for a frame; or nothing where one can't be had.
pub fn open_ends<R: Net>(rt: &R, ipmb_port: u16, smbus_port: u16, wait_ms: u32) -> Option<BusLinks>
    ensures ipmb { IfSome result (λ ends. ends.ipmb.counts ≡ none_counted) }
    ensures smbus { IfSome result (λ ends. ends.smbus.counts ≡ none_counted) }
{
    let ipmb = UdpLink::to(rt, ipmb_port, wait_ms).ok()?;
    let smbus = UdpLink::to(rt, smbus_port, wait_ms).ok()?;
    Some(BusLinks { ipmb, smbus })
}

/// Hears nothing for so many turns and one more, by a link of its own, to which nobody is to speak: a controller whose turns last as long, and
/// that is within one, has had so many of its own by then.
pub(crate) fn sit_out<R: Net>(rt: &R, wait_ms: u32, turns: u32) -> Result<(), LinkFault> {
    let mut link = UdpLink::bind(rt, 0, wait_ms)?;
    for _ in 0..=turns {
        link.next()?;
    }
    Ok(())
}
