//! The numbers of a bus, as code names them.
ghost use Rattle.std.specs.Prelude.{◌≡◌};
ghost use Rattle.model_bus.specs.Bytes.{control_message_type, pldm_message_type};
ghost use Rattle.model_bus.specs.Circle.{span_of};
ghost use Rattle.model_bus.specs.Request.{requester_bytes};

use two_wire::Bus;

/// The message type of MCTP control messages (DSP0239).
pub const CONTROL_MESSAGE_TYPE: u8 = 0x00;

/// The message type of PLDM (DSP0239).
pub const PLDM_MESSAGE_TYPE: u8 = 0x01;

/// How many requesters a byte tells apart.
pub const REQUESTERS: usize = 256;

/// Each constant is the definition of its name.
pub fn constants_are_the_definitions()
    ensures control_message_type { CONTROL_MESSAGE_TYPE ≡ control_message_type }
    ensures pldm_message_type { PLDM_MESSAGE_TYPE ≡ pldm_message_type }
    ensures requesters { REQUESTERS ≡ requester_bytes }
{}

/// How many newer requests of the manager, once begun, make a frame too old.
pub fn span(on: Bus) -> usize
    ensures { result ≡ span_of on }
{
    match on {
        Bus::Ipmb => 32,
        Bus::Smbus => 8,
    }
}
