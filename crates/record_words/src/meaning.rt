//! What numbers in the fields of records mean, in the standard's terms (IPMI 2.0).
ghost use Rattle.std.specs.Prelude.{◌≡◌};
ghost use Rattle.record_words.specs.Meanings.{meaning_words};

use std::fmt;

/// What a number means.
#[derive(Clone, Copy, Debug, PartialEq, Eq)]
pub enum Meaning {
    AlwaysOff,
    Previous,
    AlwaysOn,
    UnknownPolicy,
    NoUse,
    BiosFrb2,
    BiosPost,
    OsLoad,
    SmsOs,
    OemUse,
    NoInterrupt,
    Smi,
    Nmi,
    MessagingInterrupt,
    NoAction,
    HardReset,
    PowerDown,
    PowerCycle,
    Callback,
    User,
    Operator,
    Administrator,
    OemPrivilege,
    NoAccess,
    ModeDisabled,
    PreBootOnly,
    AlwaysAvailable,
    Shared,
    Unspecified,
    Static,
    Dhcp,
    BySoftware,
    OtherSource,
    ReservedSelection,
    NoOverride,
    Pxe,
    Disk,
    SafeDisk,
    Diagnostic,
    CdDvd,
    BiosSetup,
    RemoteFloppy,
    RemoteCdDvd,
    RemoteMedia,
    TenthDevice,
    RemoteDisk,
    TwelfthDevice,
    ThirteenthDevice,
    FourteenthDevice,
    Floppy,
    Uint8,
    Sint8,
    Uint16,
    Sint16,
    Uint32,
    Sint32,
    UnknownSize,
}

impl Meaning {
    /// The words.
    pub fn spelt(self) -> &'static str
        ensures { result.now ≡ meaning_words self }
    {
        match self {
            Meaning::AlwaysOff => "always off",
            Meaning::Previous => "previous",
            Meaning::AlwaysOn => "always on",
            Meaning::UnknownPolicy => "unknown",
            Meaning::NoUse => "none",
            Meaning::BiosFrb2 => "BIOS FRB2",
            Meaning::BiosPost => "BIOS/POST",
            Meaning::OsLoad => "OS load",
            Meaning::SmsOs => "SMS/OS",
            Meaning::OemUse => "OEM",
            Meaning::NoInterrupt => "none",
            Meaning::Smi => "SMI",
            Meaning::Nmi => "NMI",
            Meaning::MessagingInterrupt => "messaging interrupt",
            Meaning::NoAction => "no action",
            Meaning::HardReset => "hard reset",
            Meaning::PowerDown => "power down",
            Meaning::PowerCycle => "power cycle",
            Meaning::Callback => "callback",
            Meaning::User => "user",
            Meaning::Operator => "operator",
            Meaning::Administrator => "administrator",
            Meaning::OemPrivilege => "OEM",
            Meaning::NoAccess => "no access",
            Meaning::ModeDisabled => "disabled",
            Meaning::PreBootOnly => "pre-boot only",
            Meaning::AlwaysAvailable => "always available",
            Meaning::Shared => "shared",
            Meaning::Unspecified => "unspecified",
            Meaning::Static => "static",
            Meaning::Dhcp => "DHCP",
            Meaning::BySoftware => "BIOS or system software",
            Meaning::OtherSource => "other",
            Meaning::ReservedSelection => "reserved",
            Meaning::NoOverride => "no override",
            Meaning::Pxe => "pxe",
            Meaning::Disk => "disk",
            Meaning::SafeDisk => "disk in safe mode",
            Meaning::Diagnostic => "diagnostic partition",
            Meaning::CdDvd => "CD/DVD",
            Meaning::BiosSetup => "BIOS setup",
            Meaning::RemoteFloppy => "remote floppy",
            Meaning::RemoteCdDvd => "remote CD/DVD",
            Meaning::RemoteMedia => "remote media",
            Meaning::TenthDevice => "reserved device 10",
            Meaning::RemoteDisk => "remote disk",
            Meaning::TwelfthDevice => "reserved device 12",
            Meaning::ThirteenthDevice => "reserved device 13",
            Meaning::FourteenthDevice => "reserved device 14",
            Meaning::Floppy => "floppy",
            Meaning::Uint8 => "uint8",
            Meaning::Sint8 => "sint8",
            Meaning::Uint16 => "uint16",
            Meaning::Sint16 => "sint16",
            Meaning::Uint32 => "uint32",
            Meaning::Sint32 => "sint32",
            Meaning::UnknownSize => "unknown size",
        }
    }
}

impl fmt::Display for Meaning {
    ghost use Rattle.std.specs.Prelude.{Some};
    ghost use Rattle.record_words.specs.Meanings.{meaning_words};

    ghost output = { λ it. Some (meaning_words it) };

    fn fmt<W: fmt::Write>(&self, f: &mut fmt::Formatter<W>) -> fmt::Result {
        f.write_str(self.spelt())
    }
}
