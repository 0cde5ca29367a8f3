//! Who talks to whom in the lab.
ghost use Rattle.std.specs.Prelude.{◌≡◌};
ghost use Rattle.model_lab.specs.Meaning.{lab_names as the_names};

use two_wire::Address;
use two_wire::places::{CONTROLLER_EID, CONTROLLER_WIRE};
use undo_plans::Names;

/// The manager's two-wire address on IPMB.
const MANAGER_ADDRESS: u8 = 0x2C;

/// The manager's two-wire address on SMBus.
const MANAGER_WIRE: u8 = 0x30;

/// The manager's EID.
const MANAGER_EID: u8 = 0x08;

/// The lab's names, which a run over links has too.
pub fn lab_names() -> Names
    ensures { result ≡ the_names }
{
    Names {
        own_address: Address::new(MANAGER_ADDRESS).unwrap(),
        peer_address: Address::new(CONTROLLER_WIRE).unwrap(),
        own_wire: Address::new(MANAGER_WIRE).unwrap(),
        peer_wire: Address::new(CONTROLLER_WIRE).unwrap(),
        own_eid: MANAGER_EID,
        peer_eid: CONTROLLER_EID,
    }
}
