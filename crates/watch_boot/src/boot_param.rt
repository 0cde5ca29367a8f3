//! The boot parameters, as a kind of record.
ghost use Rattle.std.specs.Prelude.{◌≡◌, ◌+◌, ◌≤◌, ◌++◌, length};
ghost use Rattle.record_base.specs.BootParam.{selector, parameter_of, IsBootParam};
ghost use Rattle.watch_boot.specs.BootParam.{masked_byte, marked, boot_body, boot_view};

use record_base::mask::has;
use record_base::net_fn::CHASSIS;
use record_base::{
    Asked, BootChange, BootFlags, BootParameter, Key, Live, MaskedBits, RecordData, RecordKind,
    SetBootParam, Value,
};
use two_wire::{Buffer, Code, NetFn};

/// The number of the Set command.
const SET_SYSTEM_BOOT_OPTIONS: u8 = 0x08;

/// The number of the Get command.
const GET_SYSTEM_BOOT_OPTIONS: u8 = 0x09;

/// The version of the parameters, which a reply gives first.
const VERSION: u8 = 0x01;

/// The bit beside a selector that marks its parameter as invalid.
const INVALID_PLACE: usize = 7;

/// The limits of one boot parameter: its name.
#[derive(Clone, Copy)]
pub struct BootParamLimits {
    pub parameter: BootParameter,
}

/// The number of a parameter: its selector.
pub fn selector(parameter: BootParameter) -> u8
    ensures value { result ≡ selector parameter }
    ensures small { result ≤ 5 }
{
    match parameter {
        BootParameter::ValidBitClearing => 3,
        BootParameter::InfoAcknowledge => 4,
        BootParameter::Flags => 5,
    }
}

/// The selector with the mark in bit 7.
fn marked(invalid: bool, parameter: BootParameter) -> u8
    ensures { result ≡ marked invalid parameter }
{
    let number = selector(parameter);
    if invalid { 128 + number } else { number }
}

/// The parameter that the change changes.
fn parameter_of(change: &BootChange) -> BootParameter
    ensures { result ≡ parameter_of change.now }
{
    match change {
        BootChange::MarkAlone(parameter) => *parameter,
        BootChange::ValidBitClearing(_) => BootParameter::ValidBitClearing,
        BootChange::InfoAcknowledge(_) => BootParameter::InfoAcknowledge,
        BootChange::Flags(_) => BootParameter::Flags,
    }
}

/// The old byte with the masked bits written.
fn masked_byte(masked: &MaskedBits, old: u8) -> u8
    ensures { result ≡ masked_byte masked.now.mask masked.now.bits old }
{
    old ^ ((old ^ masked.bits) & masked.mask)
}

/// The data of the request that carries out the operation.
fn body(op: &SetBootParam) -> RecordData
    ensures value { result ≡ boot_body op.now }
    ensures short { length result ≤ 6 }
{
    let first = marked(op.invalid, parameter_of(&op.change));
    match &op.change {
        BootChange::MarkAlone(_) => RecordData::from_slice(&[first]),
        BootChange::ValidBitClearing(byte) => RecordData::from_slice(&[first, *byte]),
        BootChange::InfoAcknowledge(masked) => {
            RecordData::from_slice(&[first, masked.mask, masked.bits])
        }
        BootChange::Flags(flags) => {
            let [validity, device, console, overrides, instance] = flags.bytes();
            RecordData::from_slice(&[first, validity, device, console, overrides, instance])
        }
    }
}

/// Appends the data of the Get reply.
fn show<B: Buffer>(parameter: BootParameter, value: &[u8], reply: &mut B)
    requires is_valid { IsBootParam parameter value.now }
    requires room { length (B.bytes reply.old)
        + length (boot_view parameter value.now) ≤ B.capacity }
    ensures { B.bytes reply.new ≡ B.bytes reply.old ++ boot_view parameter value.now }
{
    let second = marked(value[0] == 1, parameter);
    match parameter {
        BootParameter::ValidBitClearing => reply.extend_from_slice(&[VERSION, second, value[1]]),
        BootParameter::InfoAcknowledge => reply.extend_from_slice(&[VERSION, second, 0, value[1]]),
        BootParameter::Flags => reply.extend_from_slice(&[
            VERSION, second, value[1], value[2], value[3], value[4], value[5],
        ]),
    }
}

impl<'a> RecordKind<'a> for BootParamLimits {
    ghost use Rattle.watch_boot.specs.BootParamKind as boot_param;

    type Key = BootParameter;

    type Op = SetBootParam;

    ghost kind = { boot_param.kind };

    fn key(op: &SetBootParam) -> Key {
        Key::BootParam(parameter_of(&op.change))
    }

    fn apply(&self, op: &SetBootParam, value: &[u8], new: &mut Value) -> Result<(), Code> {
        let mark = if op.invalid { 1 } else { 0 };
        match &op.change {
            BootChange::MarkAlone(BootParameter::Flags) => {
                new.replace(&[mark, value[1], value[2], value[3], value[4], value[5]]);
            }
            BootChange::MarkAlone(_) => new.replace(&[mark, value[1]]),
            BootChange::ValidBitClearing(byte) => new.replace(&[mark, byte % 32]),
            BootChange::InfoAcknowledge(masked) => new.replace(&[
                mark,
                masked_byte(masked, value[1]),
            ]),
            BootChange::Flags(flags) => {
                let [validity, device, console, overrides, instance] = flags.bytes();
                new.replace(&[mark, validity, device, console, overrides, instance]);
            }
        }
        Ok(())
    }

    fn set_reply<B: Buffer>(_op: &SetBootParam, _reply: &mut B) {}

    fn next_live(_op: &SetBootParam, _live: &mut Live) {}

    fn get_data<B: Buffer>(&self, value: &[u8], _live: &Live, reply: &mut B) {
        show(self.parameter, value, reply);
    }

    fn get_asked(parameter: &BootParameter) -> Asked {
        Asked::ipmi(
            NetFn::new(CHASSIS),
            GET_SYSTEM_BOOT_OPTIONS,
            &[selector(*parameter), 0, 0],
        )
    }

    fn set_data(op: &SetBootParam) -> RecordData {
        body(op)
    }

    fn set_asked(op: &SetBootParam) -> Asked {
        let body = body(op);
        Asked::ipmi(
            NetFn::new(CHASSIS),
            SET_SYSTEM_BOOT_OPTIONS,
            body.as_slice(),
        )
    }

    fn inverse(op: &SetBootParam, get_data: &'a [u8]) -> Option<SetBootParam> {
        let change = match (&op.change, get_data) {
            (BootChange::MarkAlone(BootParameter::ValidBitClearing), [_, _, _])
            | (BootChange::MarkAlone(BootParameter::InfoAcknowledge), [_, _, _, _])
            | (BootChange::MarkAlone(BootParameter::Flags), [_, _, _, _, _, _, _]) => op.change,
            (BootChange::ValidBitClearing(_), [_, _, byte]) => {
                BootChange::ValidBitClearing(byte % 32)
            }
            (BootChange::InfoAcknowledge(masked), [_, _, _, bits]) => {
                BootChange::InfoAcknowledge(MaskedBits {
                    mask: masked.mask,
                    bits: *bits,
                })
            }
            (BootChange::Flags(_), [_, _, validity, device, console, overrides, instance]) =>
                BootChange::Flags(BootFlags {
                    validity: *validity,
                    device: *device,
                    console: *console,
                    overrides: *overrides,
                    instance: *instance,
                }),
            _ => return None,
        };
        Some(SetBootParam {
            invalid: has(get_data[1], INVALID_PLACE),
            change,
        })
    }
}
