//! Why a control command is refused.

/// The completion code of a refused control command (DSP0236, "MCTP control message completion codes").
#[derive(Clone, Copy, Debug, PartialEq, Eq)]
pub enum ControlFault {
    /// The data aren't valid.
    InvalidData = 0x02,
    /// The command doesn't take so many bytes of data.
    InvalidLength = 0x03,
    /// The command isn't one of the endpoint's.
    UnsupportedCommand = 0x05,
}
