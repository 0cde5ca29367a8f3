//! Requests that are looked at where they lie.
ghost use Rattle.std.specs.Prelude.{◌≡◌};
ghost use Rattle.bmc_board.specs.Request.{asked_of, asked_by, requester};
ghost use Rattle.bmc_board.specs.Asking.{as_asked, data_of};

use crate::command::Command;
use crate::request::{read_ipmi, read_pldm};
use record_base::Asked;
use two_wire::size::{MOST_IPMI_REQUEST_DATA, MOST_PLDM_REQUEST_DATA};
use two_wire::{Below, Code, Data, Lun, NetFn};

/// A request, and who sent it, as in `Asked`. Its data lie where they came.
#[derive(Drop)]
pub enum AskedRef<'a> {
    /// IPMI: network function, logical unit of the controller, command and data.
    Ipmi {
        from: u8,
        net_fn: NetFn,
        lun: Lun,
        command: u8,
        body: Data<'a, { MOST_IPMI_REQUEST_DATA }>,
    },
    /// PLDM: type, command and data.
    Pldm {
        from: u8,
        kind: Below<64>,
        command: u8,
        body: Data<'a, { MOST_PLDM_REQUEST_DATA }>,
    },
}

impl<'a> AskedRef<'a> {
    /// The request, which lies in a value of its own.
    pub fn of(asked: &'a Asked) -> Self
        ensures { as_asked result ≡ asked.now }
    {
        match asked {
            Asked::Ipmi {
                from,
                net_fn,
                lun,
                command,
                body,
            } => AskedRef::Ipmi {
                from: *from,
                net_fn: *net_fn,
                lun: *lun,
                command: *command,
                body: Data::new(body.as_slice()),
            },
            Asked::Pldm {
                from,
                kind,
                command,
                body,
            } => AskedRef::Pldm {
                from: *from,
                kind: *kind,
                command: *command,
                body: Data::new(body.as_slice()),
            },
        }
    }

    /// Who sent it: an IPMB address, or an endpoint's EID.
    #[inline(always)]
    pub fn requester(&self) -> u8
        ensures { result ≡ requester (as_asked self.now) }
    {
        match self {
            AskedRef::Ipmi { from, .. } | AskedRef::Pldm { from, .. } => *from,
        }
    }

    /// The request's data.
    pub fn body(&self) -> &'a [u8]
        ensures { result.now ≡ data_of self.now }
    {
        match self {
            AskedRef::Ipmi { body, .. } => body.as_slice(),
            AskedRef::Pldm { body, .. } => body.as_slice(),
        }
    }

    /// The command of the request, or the first code that refuses it.
    #[inline(always)]
    pub fn command(&self) -> Result<Command, Code>
        ensures { asked_of (requester (as_asked self.now)) result (data_of self.now)
            ≡ asked_by (as_asked self.now) }
    {
        match self {
            AskedRef::Ipmi {
                lun,
                net_fn,
                command,
                body,
                ..
            } => read_ipmi(*lun, *net_fn, *command, body.as_slice()),
            AskedRef::Pldm {
                kind,
                command,
                body,
                ..
            } => read_pldm(*kind, *command, body.as_slice()),
        }
    }
}
