//! What the Gets of users and channels show behind an operation.
ghost use Rattle.std.specs.Prelude.{◌≡◌, IfOk};
ghost use Rattle.shown_records.specs.Users.{access_after, after_channel_access, after_lan_param, after_user_access};

use record_base::lan::vlan_high;
use record_base::mask::has;
use record_base::{
    ChannelChange, LanChange, SetChannelAccess, SetLanParam, SetUserAccess, SetUserName, byte_at,
};
use std::alloc::{AllocError, Global};

/// The bit of a request's first byte that is set where bits 6:4 change.
const CHANGE_PLACE: usize = 7;

/// The name is the operation's.
pub(crate) fn user_name(alloc: Global, op: &SetUserName) -> Result<Vec<u8>, AllocError>
    ensures { IfOk result (λ after. after.items ≡ op.now.name) }
{
    Vec::from_slice(alloc, &op.name)
}

/// The byte of a user's access, where it was this one: bits 6:4 are the operation's where that changes them, and bit 7 stays.
fn access_after(op: &SetUserAccess, old: u8) -> u8
    ensures { result ≡ access_after op.now old }
{
    let bits = if has(op.first, CHANGE_PLACE) {
        op.first / 16 % 8
    } else {
        old / 16 % 8
    };
    old / 128 * 128 + (bits * 16 + op.limit % 16)
}

/// The last byte is the access.
pub(crate) fn user_access(
    alloc: Global,
    op: &SetUserAccess,
    shown: &[u8],
) -> Result<Vec<u8>, AllocError>
    ensures { IfOk result (λ after. after.items ≡ after_user_access op.now shown.now) }
{
    let access = access_after(op, byte_at(shown, 3));
    let after = [
        byte_at(shown, 0),
        byte_at(shown, 1),
        byte_at(shown, 2),
        access,
    ];
    Vec::from_slice(alloc, &after)
}

/// The access, the limit or both are the operation's.
pub(crate) fn channel_access(
    alloc: Global,
    op: &SetChannelAccess,
    shown: &[u8],
) -> Result<Vec<u8>, AllocError>
    ensures { IfOk result (λ after. after.items ≡ after_channel_access op.now shown.now) }
{
    let after = match &op.change {
        ChannelChange::Access(access) => [access.number, byte_at(shown, 1)],
        ChannelChange::Limit(limit) => [byte_at(shown, 0), limit.number % 16],
        ChannelChange::Both(access, limit) => [access.number, limit.number % 16],
    };
    Vec::from_slice(alloc, &after)
}

/// The data behind the revision are the operation's.
pub(crate) fn lan_param(
    alloc: Global,
    op: &SetLanParam,
    shown: &[u8],
) -> Result<Vec<u8>, AllocError>
    ensures { IfOk result (λ after. after.items ≡ after_lan_param op.now shown.now) }
{
    let revision = byte_at(shown, 0);
    match &op.change {
        LanChange::Address(_, address) => {
            let [first, second, third, fourth] = address.bytes();
            Vec::from_slice(alloc, &[revision, first, second, third, fourth])
        }
        LanChange::AddressSource(byte) => Vec::from_slice(alloc, &[revision, byte % 16]),
        LanChange::Vlan(vlan) => {
            Vec::from_slice(alloc, &[revision, vlan.low, vlan_high(vlan.high)])
        }
    }
}
