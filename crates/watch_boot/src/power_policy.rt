//! The power restore policy, as a kind of record.
ghost use Rattle.std.specs.Prelude.{◌≡◌};
ghost use Rattle.watch_boot.specs.PowerPolicy.{policy_in};

use record_base::net_fn::CHASSIS;
use record_base::{
    Asked, CommandReader, Key, Live, Op, RecordData, RecordKind, SetPowerPolicy, Value, byte_at,
};
use two_wire::code::INVALID_DATA_FIELD;
use two_wire::{Buffer, Code, NetFn};

/// The number of the Get command.
const GET_CHASSIS_STATUS: u8 = 0x01;

/// The number of the Set command.
const SET_POWER_RESTORE_POLICY: u8 = 0x06;

/// The unknown policy. A Set with it changes nothing.
const UNKNOWN: u8 = 3;

/// The policies that a Set may choose, by a bit for each: 0, 1 and 2.
const SUPPORTED: u8 = 0x07;

/// A Set can set any known policy.
#[derive(Clone, Copy)]
pub struct PowerPolicyLimits;

/// The operation with these data.
fn policy_in(body: &[u8]) -> SetPowerPolicy
    ensures { result ≡ policy_in body.now }
{
    SetPowerPolicy {
        policy: byte_at(body, 0),
    }
}

impl CommandReader for PowerPolicyLimits {
    ghost use Rattle.watch_boot.specs.PowerPolicyKind as power_policy;

    ghost reader = { power_policy.reader };

    #[inline(always)]
    fn key_in(_body: &[u8]) -> Key {
        Key::PowerPolicy
    }

    #[inline(always)]
    fn op_in(body: &[u8]) -> Op<'_> {
        Op::PowerPolicy(policy_in(body))
    }
}

impl<'a> RecordKind<'a> for PowerPolicyLimits {
    ghost use Rattle.watch_boot.specs.PowerPolicyKind as power_policy;

    type Key = ();

    type Op = SetPowerPolicy;

    ghost kind = { power_policy.kind };

    fn key(_op: &SetPowerPolicy) -> Key {
        Key::PowerPolicy
    }

    #[inline(always)]
    fn apply(&self, op: &SetPowerPolicy, value: &[u8], new: &mut Value) -> Result<(), Code> {
        let asked = op.policy & 0x07;
        if asked > UNKNOWN {
            return Err(INVALID_DATA_FIELD);
        }
        let next = if asked == UNKNOWN { value[0] } else { asked };
        new.replace(&[next]);
        Ok(())
    }

    fn set_reply<B: Buffer>(_op: &SetPowerPolicy, reply: &mut B) {
        reply.push(SUPPORTED);
    }

    fn next_live(_op: &SetPowerPolicy, _live: &mut Live) {}

    fn get_data<B: Buffer>(&self, value: &[u8], live: &Live, reply: &mut B) {
        reply.extend_from_slice(&[(value[0] << 5) | live.chassis.number(), 0, 0]);
    }

    fn get_asked(_key: &()) -> Asked {
        Asked::ipmi(NetFn::new(CHASSIS), GET_CHASSIS_STATUS, &[])
    }

    fn set_data(op: &SetPowerPolicy) -> RecordData {
        RecordData::from_slice(&[op.policy])
    }

    fn set_asked(op: &SetPowerPolicy) -> Asked {
        Asked::ipmi(NetFn::new(CHASSIS), SET_POWER_RESTORE_POLICY, &[op.policy])
    }

    fn inverse(_op: &SetPowerPolicy, get_data: &'a [u8]) -> Option<SetPowerPolicy> {
        let [status, _, _] = get_data else {
            return None;
        };
        let policy = (status >> 5) & 0x03;
        if policy == UNKNOWN {
            return None;
        }
        Some(SetPowerPolicy { policy })
    }
}
