//! Live commands: those that ask for no configuration record.
ghost use Rattle.std.specs.Prelude.{◌≡◌, ◌/◌, ◌%◌};
ghost use Rattle.bmc_board.specs.Live.{device_data, already_in_progress, progress_data};

use cfg_records::Device;
use record_base::ChannelNumber;
use two_wire::Code;
use user_chan::lan_request::LanAnswer;

/// A command that asks for no record, and leaves all of them.
#[derive(Clone, Copy)]
pub enum LiveCommand {
    GetDeviceId,
    GetSelfTestResults,
    ResetWatchdog,
    GetSensorReading,
    GetSdrRepositoryInfo,
    ReserveSdrRepository,
    GetSdr,
    GetSelInfo,
    ReserveSel,
    GetSelEntry,
    AddSelEntry,
    ClearSel,
    GetSelTime,
    SetSelTime,
    /// Set System Boot Options, of parameter 0: what it becomes.
    SetBootProgress(Option<u8>),
    /// Get System Boot Options, of parameter 0.
    GetBootProgress,
    /// Set Channel Access, where it changes nothing of the channel.
    LeaveChannelAccess(ChannelNumber),
    SetUserPassword,
    GetTid,
    GetPldmTypes,
    GetBiosTable,
    /// A command of LAN parameters that names no record, on this channel.
    AnswerLan(ChannelNumber, LanAnswer),
}

/// What Get Self Test Results replies (IPMI 2.0): no error was found.
pub(crate) const NO_ERROR: [u8; 2] = [0x55, 0x00];

/// What GetPLDMTypes replies (DSP0240): a bit for each type, the lowest byte first.
pub(crate) const PLDM_TYPES: [u8; 8] = [0x0D, 0, 0, 0, 0, 0, 0, 0];

/// What Get Device ID replies (IPMI 2.0).
pub(crate) fn device_data(device: &Device) -> [u8; 11]
    ensures { result ≡ device_data device.now }
{
    let manufacturer = device.manufacturer.number;
    let product = device.product;
    [
        device.id,
        device.revision,
        device.major,
        device.minor.byte,
        0x02,
        device.support,
        (manufacturer % 256) as u8,
        (manufacturer / 256 % 256) as u8,
        (manufacturer / 65536) as u8,
        (product % 256) as u8,
        (product / 256) as u8,
    ]
}

/// The code of a set of boot options that is in progress already (IPMI 2.0, Set System Boot Options).
const ALREADY_IN_PROGRESS: u8 = 0x81;

/// The code of a command that is in progress already.
pub(crate) fn already_in_progress() -> Code
    ensures { result ≡ already_in_progress }
{
    Code::new(ALREADY_IN_PROGRESS).unwrap()
}

/// What Get System Boot Options replies of parameter 0.
pub(crate) fn progress_data(progress: bool) -> [u8; 3]
    ensures { result ≡ progress_data progress }
{
    [0x01, 0x00, if progress { 1 } else { 0 }]
}
