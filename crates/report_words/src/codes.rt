//! The completion codes of both buses.
ghost use Rattle.std.specs.Prelude.{◌≡◌, IfSome, IfNone, None, Some};
ghost use Rattle.report_words.specs.CodeNames.{code_name};

use crate::ipmi::ipmi_row;
use crate::pldm::pldm_row;
use crate::row::CodeRow;
use std::fmt;
use two_wire::Bus;

/// What is said of a code of a reply on that bus: of IPMI on IPMB, and of PLDM on SMBus, or nothing where no standard has the code.
pub fn code_row(bus: Bus, code: u8) -> Option<CodeRow>
    ensures some { IfSome result (λ row. code_name bus code ≡ Some row.name.now) }
    ensures none { IfNone result (code_name bus code ≡ None) }
{
    match bus {
        Bus::Ipmb => ipmi_row(code),
        Bus::Smbus => pldm_row(code),
    }
}

/// A completion code of a reply on that bus. It is shown as its number in hexadecimal, and its name where it has one: `CBh not present`.
#[derive(Clone, Copy)]
pub struct NamedCode {
    pub bus: Bus,
    pub code: u8,
}

impl fmt::Display for NamedCode {
    ghost use Rattle.report_words.specs.CodeNames.{code_words};

    ghost output = { λ it. Some (code_words it.bus it.code) };

    fn fmt<W: fmt::Write>(&self, f: &mut fmt::Formatter<W>) -> fmt::Result {
        let NamedCode { bus, code } = *self;
        match code_row(bus, code) {
            Some(row) => {
                let name = row.name;
                write!(f, "{:X}{:X}h {name}", code / 16, code % 16)
            }
            None => write!(f, "{:X}{:X}h", code / 16, code % 16),
        }
    }
}
