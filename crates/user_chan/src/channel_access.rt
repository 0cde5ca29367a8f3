//! The access of a channel, in one of its stores, as a kind of record.
ghost use Rattle.std.specs.Prelude.{◌≡◌, ◌≤◌, length};
ghost use Rattle.user_chan.specs.ChannelAccess.{is_limit, is_change, store_bits, in_store, channel_body};

use record_base::net_fn::APPLICATION;
use record_base::user_sizes::{has_mode, is_privilege};
use record_base::{
    AccessStore, Asked, ChannelChange, Key, Live, RecordData, RecordKind, SetChannelAccess,
    SixBits, StoredAccess, Value,
};
use two_wire::code::INVALID_DATA_FIELD;
use two_wire::{Buffer, Code, NetFn};

/// The number of the Set command.
const SET_CHANNEL_ACCESS: u8 = 0x40;

/// The number of the Get command.
const GET_CHANNEL_ACCESS: u8 = 0x41;

/// A Set can set any known mode and any limit.
#[derive(Clone, Copy)]
pub struct ChannelAccessLimits;

/// Whether bits 3:0 of a limit's byte are a limit.
fn is_limit(byte: u8) -> bool
    ensures { result ≡ is_limit byte }
{
    is_privilege(byte % 16)
}

/// Whether a channel can have each part that the change names.
fn is_change(change: &ChannelChange) -> bool
    ensures { result ≡ is_change change.now }
{
    match change {
        ChannelChange::Access(access) => has_mode(access.number),
        ChannelChange::Limit(limit) => is_limit(limit.number),
        ChannelChange::Both(access, limit) => has_mode(access.number) && is_limit(limit.number),
    }
}

/// The bits that name a store, 11b for neither.
fn store_bits(store: AccessStore) -> u8
    ensures value { result ≡ store_bits store }
    ensures two { result ≤ 3 }
{
    match store {
        AccessStore::NonVolatile => 1,
        AccessStore::Volatile => 2,
        AccessStore::Neither => 3,
    }
}

/// Six bits behind the bits of the store.
fn in_store(store: AccessStore, bits: SixBits) -> u8
    ensures { result ≡ in_store store bits.number }
{
    store_bits(store) * 64 + bits.number
}

/// The data of the request that carries out the operation.
fn body(op: &SetChannelAccess) -> RecordData
    ensures value { result ≡ channel_body op.now }
    ensures three { length result ≡ 3 }
{
    let (access, limit) = match &op.change {
        ChannelChange::Access(access) => (in_store(op.store, *access), 0),
        ChannelChange::Limit(limit) => (0, in_store(op.store, *limit)),
        ChannelChange::Both(access, limit) => {
            (in_store(op.store, *access), in_store(op.store, *limit))
        }
    };
    RecordData::from_slice(&[op.channel.number, access, limit])
}

impl<'a> RecordKind<'a> for ChannelAccessLimits {
    ghost use Rattle.user_chan.specs.ChannelAccessKind as channel_access;

    type Key = StoredAccess;

    type Op = SetChannelAccess;

    ghost kind = { channel_access.kind };

    fn key(op: &SetChannelAccess) -> Key {
        Key::ChannelAccess(StoredAccess {
            channel: op.channel,
            store: op.store,
        })
    }

    fn apply(&self, op: &SetChannelAccess, value: &[u8], new: &mut Value) -> Result<(), Code> {
        if !is_change(&op.change) {
            return Err(INVALID_DATA_FIELD);
        }
        match &op.change {
            ChannelChange::Access(access) => new.replace(&[access.number, value[1]]),
            ChannelChange::Limit(limit) => new.replace(&[value[0], limit.number % 16]),
            ChannelChange::Both(access, limit) => new.replace(&[access.number, limit.number % 16]),
        }
        Ok(())
    }

    fn set_reply<B: Buffer>(_op: &SetChannelAccess, _reply: &mut B) {}

    fn next_live(_op: &SetChannelAccess, _live: &mut Live) {}

    fn get_data<B: Buffer>(&self, value: &[u8], _live: &Live, reply: &mut B) {
        reply.extend_from_slice(value);
    }

    fn get_asked(at: &StoredAccess) -> Asked {
        Asked::ipmi(
            NetFn::new(APPLICATION),
            GET_CHANNEL_ACCESS,
            &[at.channel.number, store_bits(at.store) * 64],
        )
    }

    fn set_data(op: &SetChannelAccess) -> RecordData {
        body(op)
    }

    fn set_asked(op: &SetChannelAccess) -> Asked {
        Asked::ipmi(
            NetFn::new(APPLICATION),
            SET_CHANNEL_ACCESS,
            body(op).as_slice(),
        )
    }

    fn inverse(op: &SetChannelAccess, get_data: &'a [u8]) -> Option<SetChannelAccess> {
        let [access, limit] = get_data else {
            return None;
        };
        let old_access = SixBits::of(*access);
        let old_limit = SixBits::of(limit % 16);
        let change = match &op.change {
            ChannelChange::Access(_) => ChannelChange::Access(old_access),
            ChannelChange::Limit(_) => ChannelChange::Limit(old_limit),
            ChannelChange::Both(_, _) => ChannelChange::Both(old_access, old_limit),
        };
        Some(SetChannelAccess {
            channel: op.channel,
            store: op.store,
            change,
        })
    }
}
