//! The LAN parameters of a channel, as a kind of record.
ghost use Rattle.std.specs.Prelude.{◌≡◌, ◌≤◌, length};
ghost use Rattle.user_chan.specs.LanParam.{is_change, lan_body};

use record_base::lan::{MOST_SOURCE, vlan_high};
use record_base::net_fn::TRANSPORT;
use record_base::{
    Asked, Ipv4Address, Key, LanChange, LanParameter, Live, ParameterOnChannel, RecordData,
    RecordKind, SetLanParam, Value, VlanBytes,
};
use two_wire::code::INVALID_DATA_FIELD;
use two_wire::{Buffer, Code, NetFn};

/// The number of the Set command.
const SET_LAN_CONFIGURATION_PARAMETERS: u8 = 0x01;

/// The number of the Get command.
const GET_LAN_CONFIGURATION_PARAMETERS: u8 = 0x02;

/// The revision of the parameters, 1.1, which a reply gives first.
const REVISION: u8 = 0x11;

/// The limits of one LAN parameter: its name.
#[derive(Clone, Copy)]
pub struct LanParamLimits {
    pub parameter: LanParameter,
}

/// Whether a parameter can have the data of the change.
fn is_change(change: &LanChange) -> bool
    ensures { result ≡ is_change change.now }
{
    match change {
        LanChange::AddressSource(byte) => byte % 16 <= MOST_SOURCE,
        LanChange::Address(_, _) | LanChange::Vlan(_) => true,
    }
}

/// The data of the request that carries out the operation.
fn body(op: &SetLanParam) -> RecordData
    ensures value { result ≡ lan_body op.now }
    ensures short { length result ≤ 6 }
{
    let channel = op.channel.number;
    let selector = op.change.parameter().selector();
    match &op.change {
        LanChange::Address(_, address) => {
            let [first, second, third, fourth] = address.bytes();
            RecordData::from_slice(&[channel, selector, first, second, third, fourth])
        }
        LanChange::AddressSource(byte) => RecordData::from_slice(&[channel, selector, *byte]),
        LanChange::Vlan(vlan) => {
            RecordData::from_slice(&[channel, selector, vlan.low, vlan.high])
        }
    }
}

impl<'a> RecordKind<'a> for LanParamLimits {
    ghost use Rattle.user_chan.specs.LanParamKind as lan_param;

    type Key = ParameterOnChannel;

    type Op = SetLanParam;

    ghost kind = { lan_param.kind };

    fn key(op: &SetLanParam) -> Key {
        Key::LanParam(ParameterOnChannel {
            channel: op.channel,
            parameter: op.change.parameter(),
        })
    }

    fn apply(&self, op: &SetLanParam, _value: &[u8], new: &mut Value) -> Result<(), Code> {
        if !is_change(&op.change) {
            return Err(INVALID_DATA_FIELD);
        }
        match &op.change {
            LanChange::Address(_, address) => new.replace(&address.bytes()),
            LanChange::AddressSource(byte) => new.replace(&[byte % 16]),
            LanChange::Vlan(vlan) => new.replace(&[vlan.low, vlan_high(vlan.high)]),
        }
        Ok(())
    }

    fn set_reply<B: Buffer>(_op: &SetLanParam, _reply: &mut B) {}

    fn next_live(_op: &SetLanParam, _live: &mut Live) {}

    fn get_data<B: Buffer>(&self, value: &[u8], _live: &Live, reply: &mut B) {
        reply.extend_from_slice(&[REVISION]);
        reply.extend_from_slice(value);
    }

    fn get_asked(on: &ParameterOnChannel) -> Asked {
        Asked::ipmi(
            NetFn::new(TRANSPORT),
            GET_LAN_CONFIGURATION_PARAMETERS,
            &[on.channel.number, on.parameter.selector(), 0, 0],
        )
    }

    fn set_data(op: &SetLanParam) -> RecordData {
        body(op)
    }

    fn set_asked(op: &SetLanParam) -> Asked {
        Asked::ipmi(
            NetFn::new(TRANSPORT),
            SET_LAN_CONFIGURATION_PARAMETERS,
            body(op).as_slice(),
        )
    }

    fn inverse(op: &SetLanParam, get_data: &'a [u8]) -> Option<SetLanParam> {
        let change = match (&op.change, get_data) {
            (LanChange::Address(which, _), [_, first, second, third, fourth]) => {
                LanChange::Address(
                    *which,
                    Ipv4Address {
                        first: *first,
                        second: *second,
                        third: *third,
                        fourth: *fourth,
                    },
                )
            }
            (LanChange::AddressSource(_), [_, byte]) => LanChange::AddressSource(byte % 16),
            (LanChange::Vlan(_), [_, low, high]) => LanChange::Vlan(VlanBytes {
                low: *low,
                high: vlan_high(*high),
            }),
            _ => return None,
        };
        Some(SetLanParam {
            channel: op.channel,
            change,
        })
    }
}
