//! The access of a user on a channel, as a kind of record.
ghost use Rattle.std.specs.Prelude.{◌≡◌, ◌≤◌, ◌<◌, length};
ghost use Rattle.user_chan.specs.UserAccess.{bits_of, changes_bits, access_body, session_limit_in, access_in, is_enabled, status_of, first_byte};

use record_base::mask::has;
use record_base::net_fn::APPLICATION;
use record_base::user::is_limit;
use record_base::{
    Asked, CommandReader, Key, Live, Op, RecordData, RecordKind, SetUserAccess, UserNumber,
    UserOnChannel, Value, byte_at,
};
use two_wire::code::INVALID_DATA_FIELD;
use two_wire::{Buffer, Code, NetFn};

/// The number of the Set command.
const SET_USER_ACCESS: u8 = 0x43;

/// The number of the Get command.
const GET_USER_ACCESS: u8 = 0x44;

/// The bit of a request's first byte that is set where bits 6:4 change.
const CHANGE_PLACE: usize = 7;

/// The user whose access the record is, and how many users a board has at most.
#[derive(Clone, Copy)]
pub struct UserAccessLimits {
    pub user: UserNumber,
    pub most: u8,
}

/// Bits 6:4 of a byte: callback, link and messages.
fn bits_of(byte: u8) -> u8
    ensures value { result ≡ bits_of byte }
    ensures few { result < 8 }
{
    byte / 16 % 8
}

/// Whether the operation changes bits 6:4.
fn changes_bits(op: &SetUserAccess) -> bool
    ensures { result ≡ changes_bits op.now }
{
    has(op.first, CHANGE_PLACE)
}

/// The data of the request that carries out the operation.
fn body(op: &SetUserAccess) -> RecordData
    ensures value { result ≡ access_body op.now }
    ensures few { length result ≤ 4 }
{
    match op.session_limit {
        Some(limit) => RecordData::from_slice(&[op.first, op.user, op.limit, limit]),
        None => RecordData::from_slice(&[op.first, op.user, op.limit]),
    }
}

/// The limit of sessions in a request's data, if the data have one.
fn session_limit_in(body: &[u8]) -> Option<u8>
    ensures { result ≡ session_limit_in body.now }
{
    match body {
        [_, _, _, limit, ..] => Some(*limit),
        _ => None,
    }
}

/// The operation with these data.
fn access_in(body: &[u8]) -> SetUserAccess
    ensures { result ≡ access_in body.now }
{
    SetUserAccess {
        first: byte_at(body, 0),
        user: byte_at(body, 1),
        limit: byte_at(body, 2),
        session_limit: session_limit_in(body),
    }
}

/// Whether the user is enabled.
fn is_enabled(user: UserNumber, live: &Live) -> bool
    ensures { result ≡ is_enabled user.number live.now }
{
    (live.enabled_users >> user.number) & 1 == 1
}

/// The status of a user, in bits 7:6 of a reply.
fn status_of(enabled: bool) -> u8
    ensures value { result ≡ status_of enabled }
    ensures small { result ≤ 128 }
{
    if enabled { 0x40 } else { 0x80 }
}

/// The first byte of a request with the same choice and these bits.
fn first_byte(op: &SetUserAccess, bits: u8) -> u8
    requires { bits < 8 }
    ensures { result ≡ first_byte op.now bits }
{
    let channel = op.first % 16;
    if changes_bits(op) {
        128 + bits * 16 + channel
    } else {
        channel
    }
}

impl CommandReader for UserAccessLimits {
    ghost use Rattle.user_chan.specs.UserAccessKind as user_access;

    ghost reader = { user_access.reader };

    #[inline(always)]
    fn key_in(body: &[u8]) -> Key {
        Key::UserAccess(UserOnChannel::of(byte_at(body, 0), byte_at(body, 1)))
    }

    #[inline(always)]
    fn op_in(body: &[u8]) -> Op<'_> {
        Op::UserAccess(access_in(body))
    }
}

impl<'a> RecordKind<'a> for UserAccessLimits {
    ghost use Rattle.user_chan.specs.UserAccessKind as user_access;

    type Key = UserOnChannel;

    type Op = SetUserAccess;

    ghost kind = { user_access.kind };

    fn key(op: &SetUserAccess) -> Key {
        Key::UserAccess(UserOnChannel::of(op.first, op.user))
    }

    fn apply(&self, op: &SetUserAccess, value: &[u8], new: &mut Value) -> Result<(), Code> {
        let limit = op.limit % 16;
        if !is_limit(limit) {
            return Err(INVALID_DATA_FIELD);
        }
        let bits = bits_of(if changes_bits(op) { op.first } else { value[0] });
        new.replace(&[bits * 16 + limit]);
        Ok(())
    }

    fn set_reply<B: Buffer>(_op: &SetUserAccess, _reply: &mut B) {}

    fn next_live(_op: &SetUserAccess, _live: &mut Live) {}

    fn get_data<B: Buffer>(&self, value: &[u8], live: &Live, reply: &mut B) {
        let enabled = live.enabled_users.count_ones() as u8;
        reply.extend_from_slice(&[
            self.most,
            status_of(is_enabled(self.user, live)) + enabled,
            1,
            value[0],
        ]);
    }

    fn get_asked(on: &UserOnChannel) -> Asked {
        Asked::ipmi(
            NetFn::new(APPLICATION),
            GET_USER_ACCESS,
            &[on.channel.number, on.user.number],
        )
    }

    fn set_data(op: &SetUserAccess) -> RecordData {
        body(op)
    }

    fn set_asked(op: &SetUserAccess) -> Asked {
        Asked::ipmi(
            NetFn::new(APPLICATION),
            SET_USER_ACCESS,
            body(op).as_slice(),
        )
    }

    fn inverse(op: &SetUserAccess, get_data: &'a [u8]) -> Option<SetUserAccess> {
        let [_, _, _, byte] = get_data else {
            return None;
        };
        Some(SetUserAccess {
            first: first_byte(op, bits_of(*byte)),
            user: op.user % 64,
            limit: byte % 16,
            session_limit: None,
        })
    }
}
