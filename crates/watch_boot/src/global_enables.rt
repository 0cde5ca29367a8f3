//! The global enables, as a kind of record.
ghost use Rattle.std.specs.Prelude.{◌≡◌};
ghost use Rattle.watch_boot.specs.GlobalEnables.{enables_in};

use record_base::global_enables::are_enables;
use record_base::net_fn::APPLICATION;
use record_base::{
    Asked, CommandReader, Key, Live, Op, RecordData, RecordKind, SetGlobalEnables, Value, byte_at,
};
use two_wire::code::INVALID_DATA_FIELD;
use two_wire::{Buffer, Code, NetFn};

/// The number of the Set command.
const SET_GLOBAL_ENABLES: u8 = 0x2E;

/// The number of the Get command.
const GET_GLOBAL_ENABLES: u8 = 0x2F;

/// A Set can set any enables without the reserved bit.
#[derive(Clone, Copy)]
pub struct GlobalEnablesLimits;

/// The operation with these data.
fn enables_in(body: &[u8]) -> SetGlobalEnables
    ensures { result ≡ enables_in body.now }
{
    SetGlobalEnables {
        byte: byte_at(body, 0),
    }
}

impl CommandReader for GlobalEnablesLimits {
    ghost use Rattle.watch_boot.specs.GlobalEnablesKind as global_enables;

    ghost reader = { global_enables.reader };

    #[inline(always)]
    fn key_in(_body: &[u8]) -> Key {
        Key::GlobalEnables
    }

    #[inline(always)]
    fn op_in(body: &[u8]) -> Op<'_> {
        Op::GlobalEnables(enables_in(body))
    }
}

impl<'a> RecordKind<'a> for GlobalEnablesLimits {
    ghost use Rattle.watch_boot.specs.GlobalEnablesKind as global_enables;

    type Key = ();

    type Op = SetGlobalEnables;

    ghost kind = { global_enables.kind };

    fn key(_op: &SetGlobalEnables) -> Key {
        Key::GlobalEnables
    }

    #[inline(always)]
    fn apply(&self, op: &SetGlobalEnables, _value: &[u8], new: &mut Value) -> Result<(), Code> {
        if !are_enables(op.byte) {
            return Err(INVALID_DATA_FIELD);
        }
        new.replace(&[op.byte]);
        Ok(())
    }

    fn set_reply<B: Buffer>(_op: &SetGlobalEnables, _reply: &mut B) {}

    fn next_live(_op: &SetGlobalEnables, _live: &mut Live) {}

    fn get_data<B: Buffer>(&self, value: &[u8], _live: &Live, reply: &mut B) {
        reply.extend_from_slice(value);
    }

    fn get_asked(_key: &()) -> Asked {
        Asked::ipmi(NetFn::new(APPLICATION), GET_GLOBAL_ENABLES, &[])
    }

    fn set_data(op: &SetGlobalEnables) -> RecordData {
        RecordData::from_slice(&[op.byte])
    }

    fn set_asked(op: &SetGlobalEnables) -> Asked {
        Asked::ipmi(NetFn::new(APPLICATION), SET_GLOBAL_ENABLES, &[op.byte])
    }

    fn inverse(_op: &SetGlobalEnables, get_data: &'a [u8]) -> Option<SetGlobalEnables> {
        let [byte] = get_data else {
            return None;
        };
        Some(SetGlobalEnables { byte: *byte })
    }
}
