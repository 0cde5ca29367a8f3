//! What is around a board: its two ports, and who asks.
use crate::window_lines::{WindowPair, open_windows};
use bmc_core::{At, Out, Port};
use mctp_net::EndpointId;
use std::alloc::{AllocError, Global};
use two_wire::{Address, Bus};

/// The two ports of a controller at address 20h and with the EID 0Ah, what they did last, who asks, and windows.
#[derive(Drop)]
pub struct Fixture {
    pub ipmb: Port,
    pub smbus: Port,
    pub out: Out,
    /// The address or the endpoint that requests to the board itself come from.
    pub from: u8,
    /// Windows that no port has.
    pub windows: WindowPair,
}

/// A fresh port.
fn open_port(alloc: Global, bus: Bus) -> Result<Port, AllocError> {
    let (Some(wire), Some(eid)) = (Address::new(0x20), EndpointId::new(0x0A)) else {
        return Err(AllocError);
    };
    Port::new(alloc, bus, At { wire, eid })
}

/// A fresh port for each bus.
fn open_ports(alloc: Global) -> Result<(Port, Port), AllocError> {
    let ipmb = open_port(alloc, Bus::Ipmb)?;
    match open_port(alloc, Bus::Smbus) {
        Ok(smbus) => Ok((ipmb, smbus)),
        Err(refused) => {
            drop(ipmb);
            Err(refused)
        }
    }
}

/// Fresh ports. Requests come from 2Ch.
pub fn open_around(alloc: Global) -> Result<Fixture, AllocError> {
    let windows = open_windows(alloc)?;
    match open_ports(alloc) {
        Ok((ipmb, smbus)) => Ok(Fixture {
            ipmb,
            smbus,
            out: Out::new(),
            from: 0x2C,
            windows,
        }),
        Err(refused) => {
            drop(windows);
            Err(refused)
        }
    }
}
