//! The boot parameters: in a board file, and as they are set.
ghost use Rattle.std.specs.Prelude.{◌≡◌, ◌<◌};
ghost use Rattle.record_base.specs.BootParam.{boot_length, parameter_at, flag_bytes};

use crate::key::Key;
use crate::start_value::StartValue;

/// A parameter of the system boot options that a controller keeps (IPMI 2.0).
#[derive(Clone, Copy, Debug, PartialEq, Eq, PartialOrd, Ord)]
pub enum BootParameter {
    /// Parameter 3, boot flag valid bit clearing: when the controller leaves the boot flags valid, by bits 4:0.
    ValidBitClearing,
    /// Parameter 4, boot info acknowledge: who has handled the boot information, by a bit each.
    InfoAcknowledge,
    /// Parameter 5, boot flags: how the system boots.
    Flags,
}

/// The boot flags, by the five data bytes of parameter 5 (IPMI 2.0).
#[derive(Clone, Copy, Debug)]
pub struct BootFlags {
    /// Whether the flags are valid, and for how long.
    pub validity: u8,
    /// Where the system boots from.
    pub device: u8,
    /// What its firmware shows, and whom it lets in.
    pub console: u8,
    /// Which settings of the firmware are overridden.
    pub overrides: u8,
    /// Which one of several devices it boots from.
    pub instance: u8,
}

/// The first data of the boot parameters. At first no parameter is marked as invalid.
#[derive(Clone, Copy, Debug)]
pub struct BootOptions {
    pub valid_bit_clearing: u8,
    pub info_acknowledge: u8,
    pub flags: BootFlags,
    ghost five_bits: { valid_bit_clearing < 32 },
    ghost byte: { info_acknowledge < 256 },
}

/// The bits of parameter 4 that a Set writes, and their new values.
#[derive(Clone, Copy)]
pub struct MaskedBits {
    pub mask: u8,
    pub bits: u8,
}

/// A change of a boot parameter's data.
#[derive(Clone, Copy)]
pub enum BootChange {
    /// The data stay.
    MarkAlone(BootParameter),
    /// Parameter 3 becomes bits 4:0 of this byte.
    ValidBitClearing(u8),
    /// The masked bits of parameter 4 become these.
    InfoAcknowledge(MaskedBits),
    /// Parameter 5 becomes these flags.
    Flags(BootFlags),
}

/// Sets a boot parameter: whether it is marked as invalid, and its data.
#[derive(Clone, Copy)]
pub struct SetBootParam {
    pub invalid: bool,
    pub change: BootChange,
}

impl BootParameter {
    /// The parameter of this number, its selector in a request.
    pub fn at(number: u8) -> Option<BootParameter>
        ensures { result ≡ parameter_at number }
    {
        match number {
            3 => Some(BootParameter::ValidBitClearing),
            4 => Some(BootParameter::InfoAcknowledge),
            5 => Some(BootParameter::Flags),
            _ => None,
        }
    }

    /// How many bytes the parameter's value has: the mark and the data.
    pub fn length(self) -> usize
        ensures { result ≡ boot_length self }
    {
        match self {
            BootParameter::ValidBitClearing | BootParameter::InfoAcknowledge => 2,
            BootParameter::Flags => 6,
        }
    }
}

impl BootFlags {
    /// The data of parameter 5.
    pub fn bytes(&self) -> [u8; 5]
        ensures { result ≡ flag_bytes self.now }
    {
        [
            self.validity,
            self.device,
            self.console,
            self.overrides,
            self.instance,
        ]
    }
}

impl BootOptions {
    ghost use Rattle.std.specs.Prelude.{◌≡◌, ◌<◌, ◌↔◌, IsSome, IfSome};
    ghost use Rattle.record_base.specs.Values.{boot_value};

    /// The parameters of these data, or nothing where parameter 3 has more than bits 4:0.
    pub fn new(
        valid_bit_clearing: u8,
        info_acknowledge: u8,
        flags: BootFlags,
    ) -> Option<BootOptions>
        ensures made { IsSome result ↔ (valid_bit_clearing < 32) }
        ensures bytes { IfSome result (λ made.
            (made.valid_bit_clearing ≡ valid_bit_clearing)
            × (made.info_acknowledge ≡ info_acknowledge)) }
        ensures flags { IfSome result (λ made. made.flags ≡ flags) }
    {
        if valid_bit_clearing >= 32 {
            return None;
        }
        Some(BootOptions {
            valid_bit_clearing,
            info_acknowledge,
            flags,
        })
    }

    /// The record of the parameter.
    pub fn pair(&self, parameter: BootParameter) -> (Key, StartValue)
        ensures { result ≡ (Key.BootParam parameter, boot_value self.now parameter) }
    {
        let value = match parameter {
            BootParameter::ValidBitClearing => StartValue::few(&[0, self.valid_bit_clearing]),
            BootParameter::InfoAcknowledge => StartValue::few(&[0, self.info_acknowledge]),
            BootParameter::Flags => {
                let [validity, device, console, overrides, instance] = self.flags.bytes();
                StartValue::few(&[0, validity, device, console, overrides, instance])
            }
        };
        (Key::BootParam(parameter), value)
    }
}
