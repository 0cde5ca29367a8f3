//! How many bytes a frame and a message have at most (Intelligent Platform Management Bus Communications Protocol 1.0; DSP0240).
ghost use Rattle.std.specs.Prelude.{◌≡◌};
ghost use Rattle.two_wire.specs.Sizes.{most_frame_bytes, most_ipmb_bytes, most_ipmi_request_data, most_ipmi_reply_data, most_message_bytes, most_pldm_request_data, most_pldm_reply_data};

/// A frame of either bus has room for so many.
pub const MOST_FRAME_BYTES: usize = 80;

/// A frame of IPMB.
pub const MOST_IPMB_BYTES: usize = 32;

/// The data of an IPMI request. A frame has seven bytes beside them.
pub const MOST_IPMI_REQUEST_DATA: usize = 25;

/// The data of an IPMI reply, behind the completion code.
pub const MOST_IPMI_REPLY_DATA: usize = 24;

/// A message in packets, with the byte of its type. Neither side takes a longer one.
pub const MOST_MESSAGE_BYTES: usize = 256;

/// The data of a PLDM request. A message has the byte of its type and a header of three bytes beside them.
pub const MOST_PLDM_REQUEST_DATA: usize = 252;

/// The data of a PLDM reply, behind the completion code.
pub const MOST_PLDM_REPLY_DATA: usize = 251;

/// Each constant is the definition of its name.
pub fn sizes_are_the_definitions()
    ensures frame { MOST_FRAME_BYTES ≡ most_frame_bytes }
    ensures ipmb { MOST_IPMB_BYTES ≡ most_ipmb_bytes }
    ensures ipmi_request { MOST_IPMI_REQUEST_DATA ≡ most_ipmi_request_data }
    ensures ipmi_reply { MOST_IPMI_REPLY_DATA ≡ most_ipmi_reply_data }
    ensures message { MOST_MESSAGE_BYTES ≡ most_message_bytes }
    ensures pldm_request { MOST_PLDM_REQUEST_DATA ≡ most_pldm_request_data }
    ensures pldm_reply { MOST_PLDM_REPLY_DATA ≡ most_pldm_reply_data }
{}
