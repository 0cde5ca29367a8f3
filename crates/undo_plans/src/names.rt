//! Who talks to whom.
ghost use Rattle.std.specs.Prelude.{◌≡◌};

use two_wire::Address;

/// The addresses and endpoint identifiers of a manager and of its controller.
#[derive(Clone, Copy, Debug, PartialEq, Eq)]
pub struct Names {
    /// The manager's address on IPMB.
    pub own_address: Address,
    /// The controller's address on IPMB.
    pub peer_address: Address,
    /// The manager's two-wire address on SMBus.
    pub own_wire: Address,
    /// The controller's two-wire address on SMBus.
    pub peer_wire: Address,
    /// The identifier of the manager's endpoint.
    pub own_eid: u8,
    /// The identifier of the controller's endpoint.
    pub peer_eid: u8,
}

impl Names {
    /// A copy of the names.
    pub fn copy(&self) -> Names
        ensures { result ≡ self.now }
    {
        Names {
            own_address: self.own_address,
            peer_address: self.peer_address,
            own_wire: self.own_wire,
            peer_wire: self.peer_wire,
            own_eid: self.own_eid,
            peer_eid: self.peer_eid,
        }
    }
}
