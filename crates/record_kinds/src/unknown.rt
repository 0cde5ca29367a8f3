//! The codes for records that aren't there.
ghost use Rattle.std.specs.Prelude.{◌≡◌};
ghost use Rattle.record_kinds.specs.Replies.{sessionless_channel, unknown_code};

use crate::setup::Setup;
use cfg_records::Key;
use two_wire::{Code, code};

/// The code of a channel that has no sessions (IPMI 2.0, Set and Get Channel Access).
const SESSIONLESS_CHANNEL: u8 = 0x82;

/// The code of a channel without sessions.
pub fn sessionless_channel() -> Code
    ensures { result ≡ sessionless_channel }
{
    Code::new(SESSIONLESS_CHANNEL).unwrap()
}

/// The code for a record that isn't there.
pub fn unknown_code(setup: &Setup, key: &Key) -> Code
    ensures { result ≡ unknown_code setup.now key.now }
{
    // The policy, the watchdog and the enables are on every board.
    match key {
        Key::NumericEffecter(_) | Key::StateEffecter(_) => code::PLDM_INVALID_EFFECTER,
        Key::BiosAttribute(_) => code::PLDM_INVALID_ATTRIBUTE,
        Key::UserName(_) | Key::UserAccess(_) => code::INVALID_DATA_FIELD,
        Key::LanParam(_) => code::INVALID_DATA_FIELD,
        Key::ChannelAccess(at) => {
            if setup.is_sessionless(at.channel) {
                sessionless_channel()
            } else {
                code::INVALID_DATA_FIELD
            }
        }
        _ => code::NOT_PRESENT,
    }
}
