//! Where the controller is, as code names it.
ghost use Rattle.std.specs.Prelude.{◌≡◌};
ghost use Rattle.two_wire.specs.Places.{controller_wire, controller_eid};

/// The controller's two-wire address, on both buses.
pub const CONTROLLER_WIRE: u8 = 0x20;

/// The controller's EID.
pub const CONTROLLER_EID: u8 = 0x0A;

/// Each constant is the definition of its name.
pub fn places_are_the_definitions()
    ensures wire { CONTROLLER_WIRE ≡ controller_wire }
    ensures eid { CONTROLLER_EID ≡ controller_eid }
{}
