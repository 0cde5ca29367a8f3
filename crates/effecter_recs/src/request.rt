//! Requests to effecters.
ghost use Rattle.std.specs.Prelude.{◌≡◌, ◌≤◌, length};
ghost use Rattle.two_wire.specs.Sizes.{most_pldm_request_data};
ghost use Rattle.effecter_recs.specs.Requests.{effecter_request, id_bytes, id_in, operational_state};

use record_base::{Asked, byte_at};
use two_wire::Below;

/// The PLDM type of platform monitoring and control.
const PLATFORM: u8 = 2;

/// The operational state of an effecter that is enabled, without a pending update.
pub const ENABLED: u8 = 1;

/// The operational state of an effecter that is disabled.
const DISABLED: u8 = 2;

/// The request of platform monitoring and control with this command and data, without a sender.
pub fn effecter_request(command: u8, body: &[u8]) -> Asked
    requires { length body.now ≤ most_pldm_request_data }
    ensures { result ≡ effecter_request command body.now }
{
    Asked::pldm(Below::new(PLATFORM), command, body)
}

/// The bytes of an effecter's id, the low byte first.
pub fn id_bytes(id: u16) -> [u8; 2]
    ensures { result ≡ id_bytes id }
{
    id.to_le_bytes()
}

/// The id in the first two bytes of a request's data.
pub fn id_in(body: &[u8]) -> u16
    ensures { result ≡ id_in body.now }
{
    u16::from_le_bytes([byte_at(body, 0), byte_at(body, 1)])
}

/// The operational state of an effecter, by whether it is enabled.
pub fn operational_state(enabled: bool) -> u8
    ensures { result ≡ operational_state enabled }
{
    if enabled { ENABLED } else { DISABLED }
}
