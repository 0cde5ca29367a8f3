//! The names of users, as a kind of record.
ghost use Rattle.std.specs.Prelude.{◌≡◌, length};
ghost use Rattle.user_chan.specs.UserNames.{shown_name, undo_name, name_body, name_in};

use record_base::net_fn::APPLICATION;
use record_base::user_sizes::USER_NAME_SIZE;
use record_base::{
    Asked, CommandReader, Key, Live, Op, RecordData, RecordKind, SetUserName, UserNumber, Value,
    byte_at, bytes_at,
};
use two_wire::code::INVALID_DATA_FIELD;
use two_wire::{Buffer, Code, NetFn};

/// The number of the Set command.
const SET_USER_NAME: u8 = 0x45;

/// The number of the Get command.
const GET_USER_NAME: u8 = 0x46;

/// User 1, who has no name. No Set changes it.
const NAMELESS: u8 = 1;

/// Any user but user 1 can have any name.
#[derive(Clone, Copy)]
pub struct UserNameLimits;

/// The name that a reply shows. Missing bytes are 00h.
fn shown_name(reply: &[u8]) -> [u8; USER_NAME_SIZE]
    ensures { result ≡ shown_name reply.now }
{
    bytes_at(reply, 0)
}

/// The operation that sets the name of the reply.
fn undo_name(op: &SetUserName, reply: &[u8]) -> SetUserName
    ensures { result ≡ undo_name op.now reply.now }
{
    SetUserName {
        user: op.user % 64,
        name: shown_name(reply),
    }
}

/// The operation with these data.
fn name_in(body: &[u8]) -> SetUserName
    ensures { result ≡ name_in body.now }
{
    SetUserName {
        user: byte_at(body, 0),
        name: bytes_at(body, 1),
    }
}

/// The data of the request that carries out the operation.
fn body(op: &SetUserName) -> RecordData
    ensures value { result ≡ name_body op.now }
    ensures seventeen { length result ≡ 17 }
{
    let mut body = RecordData::from_slice(&[op.user]);
    body.extend_from_slice(&op.name);
    body
}

impl CommandReader for UserNameLimits {
    ghost use Rattle.user_chan.specs.UserNamesKind as names;

    ghost reader = { names.reader };

    #[inline(always)]
    fn key_in(body: &[u8]) -> Key {
        Key::UserName(UserNumber::of(byte_at(body, 0)))
    }

    #[inline(always)]
    fn op_in(body: &[u8]) -> Op<'_> {
        Op::UserName(name_in(body))
    }
}

impl<'a> RecordKind<'a> for UserNameLimits {
    ghost use Rattle.user_chan.specs.UserNamesKind as names;

    type Key = UserNumber;

    type Op = SetUserName;

    ghost kind = { names.kind };

    fn key(op: &SetUserName) -> Key {
        Key::UserName(UserNumber::of(op.user))
    }

    fn apply(&self, op: &SetUserName, _value: &[u8], new: &mut Value) -> Result<(), Code> {
        if op.user % 64 == NAMELESS {
            return Err(INVALID_DATA_FIELD);
        }
        new.replace(&op.name);
        Ok(())
    }

    fn set_reply<B: Buffer>(_op: &SetUserName, _reply: &mut B) {}

    fn next_live(_op: &SetUserName, _live: &mut Live) {}

    fn get_data<B: Buffer>(&self, value: &[u8], _live: &Live, reply: &mut B) {
        reply.extend_from_slice(value);
    }

    fn get_asked(user: &UserNumber) -> Asked {
        Asked::ipmi(NetFn::new(APPLICATION), GET_USER_NAME, &[user.number])
    }

    fn set_data(op: &SetUserName) -> RecordData {
        body(op)
    }

    fn set_asked(op: &SetUserName) -> Asked {
        Asked::ipmi(NetFn::new(APPLICATION), SET_USER_NAME, body(op).as_slice())
    }

    fn inverse(op: &SetUserName, get_data: &'a [u8]) -> Option<SetUserName> {
        if get_data.len() != USER_NAME_SIZE {
            return None;
        }
        Some(undo_name(op, get_data))
    }
}
