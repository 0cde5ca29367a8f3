//! How a system boots, in words.
ghost use Rattle.std.specs.Prelude.{◌≡◌, Some};
ghost use Rattle.record_words.specs.BootWords as words;

use crate::meaning::Meaning;
use record_base::BootFlags;
use record_base::mask::has;
use std::fmt;

/// The bit of the first byte of the boot flags that says that they are valid (IPMI 2.0).
const VALID_PLACE: usize = 7;

/// That which says that they are for each boot, and not for the next one alone.
const LASTING_PLACE: usize = 6;

/// That which says that the system boots by EFI.
const EFI_PLACE: usize = 5;

/// The bits of the second byte beside the device.
const OTHER_DEVICE_BITS: u8 = 0xC3;

/// How a system boots: from where, whether once or each time, and by what.
#[derive(Clone, Copy, PartialEq)]
pub struct BootWay {
    pub device: u8,
    pub lasting: bool,
    pub efi: bool,
    pub valid: bool,
}

/// The device of a selector (IPMI 2.0, boot flags, bits 5:2 of the second byte).
fn device_of(selector: u8) -> Meaning
    ensures { result ≡ words.device_of selector }
{
    match selector {
        0 => Meaning::NoOverride,
        1 => Meaning::Pxe,
        2 => Meaning::Disk,
        3 => Meaning::SafeDisk,
        4 => Meaning::Diagnostic,
        5 => Meaning::CdDvd,
        6 => Meaning::BiosSetup,
        7 => Meaning::RemoteFloppy,
        8 => Meaning::RemoteCdDvd,
        9 => Meaning::RemoteMedia,
        10 => Meaning::TenthDevice,
        11 => Meaning::RemoteDisk,
        12 => Meaning::TwelfthDevice,
        13 => Meaning::ThirteenthDevice,
        14 => Meaning::FourteenthDevice,
        _ => Meaning::Floppy,
    }
}

impl BootWay {
    /// That of the boot flags.
    pub fn of(flags: &BootFlags) -> Self
        ensures { result ≡ words.way_of flags.now }
    {
        BootWay {
            device: flags.device / 4 % 16,
            lasting: has(flags.validity, LASTING_PLACE),
            efi: has(flags.validity, EFI_PLACE),
            valid: has(flags.validity, VALID_PLACE),
        }
    }
}

/// What the boot flags have beside it.
pub(crate) fn other_flags(flags: &BootFlags) -> [u8; 5]
    ensures { result ≡ words.other_flags flags.now }
{
    [
        flags.validity % 32,
        flags.device & OTHER_DEVICE_BITS,
        flags.console,
        flags.overrides,
        flags.instance,
    ]
}

impl fmt::Display for BootWay {
    ghost output = { λ it. Some (words.way_words it) };

    fn fmt<W: fmt::Write>(&self, f: &mut fmt::Formatter<W>) -> fmt::Result {
        let device = device_of(self.device);
        let lasting = if self.lasting { "each time" } else { "once" };
        let by = if self.efi { "EFI" } else { "BIOS" };
        let valid = if self.valid { "" } else { ", not valid" };
        write!(f, "{device}, {lasting}, {by}{valid}")
    }
}
