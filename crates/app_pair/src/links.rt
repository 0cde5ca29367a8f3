//! The links between a controller and a manager of one process.
ghost use Rattle.std.specs.Prelude.{◌≡◌, IfOk};
ghost use Rattle.wire_links.specs.Counted.{none_counted};

use app_run::WAIT_MS;
use std::net::Net;
use wire_links::{LinkFault, UdpLink};

/// One side's ends of both buses.
#[derive(Drop)]
pub(crate) struct BusLinks {
    pub ipmb: UdpLink,
    pub smbus: UdpLink,
}

/// The controller's ends, at free ports.
pub(crate) fn controller_ends<R: Net>(rt: &R) -> Result<BusLinks, LinkFault> {
    let ipmb = UdpLink::bind(rt, 0, WAIT_MS)?;
    let smbus = UdpLink::bind(rt, 0, WAIT_MS)?;
    Ok(BusLinks { ipmb, smbus })
}

/// The manager's ends, which send to those of the controller.
pub(crate) fn manager_ends<R: Net>(rt: &R, controller: &BusLinks) -> Result<BusLinks, LinkFault>
    ensures ipmb { IfOk result (λ ends. ends.ipmb.counts ≡ none_counted) }
    ensures smbus { IfOk result (λ ends. ends.smbus.counts ≡ none_counted) }
{
    let ipmb_port = controller.ipmb.port()?;
    let smbus_port = controller.smbus.port()?;
    let ipmb = UdpLink::to(rt, ipmb_port, WAIT_MS)?;
    let smbus = UdpLink::to(rt, smbus_port, WAIT_MS)?;
    Ok(BusLinks { ipmb, smbus })
}
