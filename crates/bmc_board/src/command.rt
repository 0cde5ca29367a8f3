//! The tables of commands.
ghost use Rattle.std.specs.Prelude.{◌≡◌, None, Some};
ghost use Rattle.bmc_board.specs.Table.{line_of, pldm_line_of, allow, is_changing, is_pldm_type};

use crate::live::LiveCommand;
use cfg_records::{Asked, byte_at};
use record_kinds::PlainKind;

/// A command of the tables.
#[derive(Clone, Copy)]
pub enum Command {
    /// A command that asks for no record.
    Live(LiveCommand),
    /// The command that shows a record of the kind.
    Get(PlainKind),
    /// The command that changes a record of the kind.
    Set(PlainKind),
    /// Set System Boot Options: it sets parameter 0, or a record.
    SetBootOptions,
    /// Get System Boot Options: it shows parameter 0, or a record.
    GetBootOptions,
    /// Set Channel Access: it sets one record, two or none.
    SetChannelAccess,
    /// Get Channel Access: it shows a record.
    GetChannelAccess,
    /// SetBIOSAttributeCurrentValue: it sets a record, where its data are whole or the last part.
    SetBiosAttribute,
    /// GetBIOSAttributeCurrentValueByHandle: it shows a record, or a later part of it.
    GetBiosAttribute,
    /// Set LAN Configuration Parameters: it sets a record, where it names one.
    SetLanParam,
    /// Get LAN Configuration Parameters: it shows a record, where it names one.
    GetLanParam,
}

/// How many bytes of data a command takes.
#[derive(Clone, Copy)]
pub enum Lengths {
    Exactly(u8),
    /// The least and the greatest.
    Between(u8, u8),
    AtLeast(u8),
    OneOf(u8, u8, u8),
    /// As many as the byte at this place tells: it counts the pairs of bytes behind it.
    PairsCountedAt(u8),
}

/// What its table says of a command: how many bytes of data it takes, and whether it sets the configuration.
#[derive(Clone, Copy)]
pub struct Line {
    pub command: Command,
    pub lengths: Lengths,
    pub changing: bool,
}

impl Lengths {
    /// Whether the command takes data of this length.
    pub fn allow(self, body: &[u8]) -> bool
        ensures { result ≡ allow self body.now }
    {
        let length = body.len();
        match self {
            Lengths::Exactly(exact) => length == exact as usize,
            Lengths::Between(least, most) => least as usize <= length && length <= most as usize,
            Lengths::AtLeast(least) => least as usize <= length,
            Lengths::OneOf(first, second, third) => {
                length == first as usize || length == second as usize || length == third as usize
            }
            Lengths::PairsCountedAt(place) => {
                let count = byte_at(body, place as usize);
                length == 1 + place as usize + 2 * count as usize
            }
        }
    }
}

const fn entry(command: Command, lengths: Lengths, changing: bool) -> Line
    ensures { result ≡ record { command = command; lengths = lengths; changing = changing } }
{
    Line {
        command,
        lengths,
        changing,
    }
}

/// The line of IPMI's table for the network function and the command number, if they are listed.
pub fn line_of(net_fn: u8, number: u8) -> Option<Line>
    ensures { result ≡ line_of net_fn number }
{
    use Command::*;
    use Lengths::*;
    use LiveCommand::*;
    use PlainKind::*;
    Some(match (net_fn, number) {
        (0x00, 0x01) => entry(Get(PowerPolicy), Exactly(0), false),
        (0x00, 0x06) => entry(Set(PowerPolicy), Exactly(1), true),
        (0x00, 0x08) => entry(SetBootOptions, AtLeast(1), true),
        (0x00, 0x09) => entry(GetBootOptions, Exactly(3), false),
        (0x04, 0x24) => entry(Set(Hysteresis), Exactly(4), true),
        (0x04, 0x25) => entry(Get(Hysteresis), Exactly(2), false),
        (0x04, 0x26) => entry(Set(Thresholds), Exactly(8), true),
        (0x04, 0x27) => entry(Get(Thresholds), Exactly(1), false),
        (0x04, 0x28) => entry(Set(EventEnable), Between(2, 6), true),
        (0x04, 0x29) => entry(Get(EventEnable), Exactly(1), false),
        (0x04, 0x2D) => entry(Live(GetSensorReading), Exactly(1), false),
        (0x06, 0x01) => entry(Live(GetDeviceId), Exactly(0), false),
        (0x06, 0x04) => entry(Live(GetSelfTestResults), Exactly(0), false),
        (0x06, 0x22) => entry(Live(ResetWatchdog), Exactly(0), false),
        (0x06, 0x24) => entry(Set(Watchdog), Exactly(6), true),
        (0x06, 0x25) => entry(Get(Watchdog), Exactly(0), false),
        (0x06, 0x2E) => entry(Set(GlobalEnables), Exactly(1), true),
        (0x06, 0x2F) => entry(Get(GlobalEnables), Exactly(0), false),
        (0x06, 0x40) => entry(SetChannelAccess, Exactly(3), true),
        (0x06, 0x41) => entry(GetChannelAccess, Exactly(2), false),
        (0x06, 0x43) => entry(Set(UserAccess), Between(3, 4), true),
        (0x06, 0x44) => entry(Get(UserAccess), Exactly(2), false),
        (0x06, 0x45) => entry(Set(UserName), Exactly(17), true),
        (0x06, 0x46) => entry(Get(UserName), Exactly(1), false),
        (0x06, 0x47) => entry(Live(SetUserPassword), OneOf(2, 18, 22), false),
        (0x0A, 0x20) => entry(Live(GetSdrRepositoryInfo), Exactly(0), false),
        (0x0A, 0x22) => entry(Live(ReserveSdrRepository), Exactly(0), false),
        (0x0A, 0x23) => entry(Live(GetSdr), Exactly(6), false),
        (0x0A, 0x40) => entry(Live(GetSelInfo), Exactly(0), false),
        (0x0A, 0x42) => entry(Live(ReserveSel), Exactly(0), false),
        (0x0A, 0x43) => entry(Live(GetSelEntry), Exactly(6), false),
        (0x0A, 0x44) => entry(Live(AddSelEntry), Exactly(16), false),
        (0x0A, 0x47) => entry(Live(ClearSel), Exactly(6), false),
        (0x0A, 0x48) => entry(Live(GetSelTime), Exactly(0), false),
        (0x0A, 0x49) => entry(Live(SetSelTime), Exactly(4), false),
        (0x0C, 0x01) => entry(SetLanParam, AtLeast(3), true),
        (0x0C, 0x02) => entry(GetLanParam, Exactly(4), false),
        _ => return None,
    })
}

/// The line of PLDM's table for the type and the command number, if they are listed.
pub fn pldm_line_of(kind: u8, number: u8) -> Option<Line>
    ensures { result ≡ pldm_line_of kind number }
{
    use Command::*;
    use Lengths::*;
    use LiveCommand::*;
    use PlainKind::*;
    Some(match (kind, number) {
        (0x00, 0x02) => entry(Live(GetTid), Exactly(0), false),
        (0x00, 0x04) => entry(Live(GetPldmTypes), Exactly(0), false),
        (0x02, 0x31) => entry(Set(NumericEffecter), AtLeast(4), true),
        (0x02, 0x32) => entry(Get(NumericEffecter), Exactly(2), false),
        (0x02, 0x39) => entry(Set(StateEffecter), PairsCountedAt(2), true),
        (0x02, 0x3A) => entry(Get(StateEffecter), Exactly(2), false),
        (0x03, 0x01) => entry(Live(GetBiosTable), Exactly(6), false),
        (0x03, 0x07) => entry(SetBiosAttribute, AtLeast(6), true),
        (0x03, 0x08) => entry(GetBiosAttribute, Exactly(7), false),
        _ => return None,
    })
}

/// Whether the PLDM type is one of the controller's: base, platform monitoring and control, BIOS.
pub fn is_pldm_type(kind: u8) -> bool
    ensures { result ≡ is_pldm_type kind }
{
    matches!(kind, 0 | 2 | 3)
}

/// Whether the request's command sets the configuration, be the request valid or not.
pub fn is_changing(asked: &Asked) -> bool
    ensures { result ≡ is_changing asked.now }
{
    let line = match asked {
        Asked::Ipmi {
            net_fn,
            command,
            ..
        } => line_of(net_fn.number(), *command),
        Asked::Pldm { kind, command, .. } => pldm_line_of(kind.number(), *command),
    };
    match line {
        Some(line) => line.changing,
        None => false,
    }
}
